// Raises of operands that stand at the top of a lent plan.
// Which node is one of them is decided in `compile`; literal powers are in `fold_powers`.
#![tactic(auto)]

ghost use Rattle.std.specs.Prelude.{◌≤◌, ◌<◌, length};
ghost use Rattle.plan.specs.Measures.{plan_length, most_rows};
ghost use Rattle.fold.specs.Folding.{fold_raise};
ghost use Rattle.fold_operands.specs.Operands.{Two, FoldsBoth};

use chain_arrays::{Power, word_by_word};
use fold_operands::{Pair, append, first_element, kind};
use fold_rows::product_rows;
use plan_rows::kinds::{CONSTANT, PRODUCT_CHAIN, RAISE};

// The operand before row middle to the one behind it: "C by C worked out; C by S becomes a product chain with elements C^fj."
pub fn fold_raise(plan: &mut [u64], pair: Pair) -> usize
    requires plan_length_in_bounds { plan_length ≤ length plan.old }
    requires end_lt_most_rows { pair.end < most_rows }
    requires two { Two plan.old pair.left pair.middle pair.end }
    ensures { FoldsBoth (fold_raise 64) plan.old pair.left pair.middle pair.end result plan.new }
{
    let Pair { left, middle, end } = pair;
    let base_root = middle - 1;
    let exponent_root = end - 1;
    let base = kind(plan, base_root);
    let exponent = kind(plan, exponent_root);
    if base == CONSTANT && exponent < PRODUCT_CHAIN {
        let c = first_element(plan, base_root);
        let f = fold_rows::elements(plan, exponent_root);
        product_rows::put_product(plan, left, word_by_word::<Power>([c; 17], f));
        return left + 1;
    }
    append(plan, end, RAISE, base_root as u64, exponent_root as u64);
    end + 1
}
