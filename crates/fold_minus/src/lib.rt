// Minus of an operand that stands at the top of a lent plan.
// Sums and differences are in `fold_sums`; which operator a node is, is decided in `compile`.
#![tactic(auto)]

ghost use Rattle.std.specs.Prelude.{◌<◌, ◌≤◌, length};
ghost use Rattle.plan.specs.Measures.{plan_length, most_rows};
ghost use Rattle.fold.specs.Folding.{fold_minus};
ghost use Rattle.fold_operands.specs.Operands.{One, Folds};

use chain::Chain;
use fold_operands::{append, chain_in, kind, put_sum};
use fold_rows::product_rows;
use plan_rows::kinds::{MINUS, PRODUCT_CHAIN};

// Minus the operand from row first up to row end: "minus S: every element; minus P: f0 only."
pub fn fold_minus(plan: &mut [u64], first: usize, end: usize) -> usize
    requires plan_length_in_bounds { plan_length ≤ length plan.old }
    requires end_lt_most_rows { end < most_rows }
    requires one { One plan.old first end }
    ensures { Folds (fold_minus 64) plan.old first end result plan.new }
{
    let root = end - 1;
    let root_kind = kind(plan, root);
    let f = chain_in(plan, root);
    if root_kind < PRODUCT_CHAIN {
        let zero = Chain {
            length: 0,
            elements: chain_arrays::zeros(),
        };
        let minus = chain_calls::difference(zero, f).unwrap();
        put_sum(plan, first, minus);
        return first + 1;
    }
    if root_kind == PRODUCT_CHAIN {
        let mut negated = product_rows::with_ones(f);
        negated[0] = negated[0].wrapping_neg();
        product_rows::put_product(plan, first, negated);
        return first + 1;
    }
    append(plan, end, MINUS, root as u64, 0);
    end + 1
}
