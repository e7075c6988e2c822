// Literal powers of operands that stand at the top of a lent plan.
// Which node is one of them is decided in `compile`; raises are in `fold_raises`, sums and products in `fold_sums` and `fold_products`.
#![tactic(auto)]

ghost use Rattle.std.specs.Prelude.{◌≡◌, ◌+◌, ◌-◌, ◌*◌, ◌≤◌, ◌<◌, length, take};
ghost use Rattle.plan.specs.Measures.{plan_length, most_rows};
ghost use Rattle.plan.specs.Row.{kind};
ghost use Rattle.plan.specs.Plan.{row};
ghost use Rattle.chain.specs.Chain.{words, trimmed};
ghost use Rattle.chain.specs.SumChain.{power};
ghost use Rattle.chain.specs.Answer.{as_chain_answer, answered, chain};
ghost use Rattle.fold.specs.Folding.{fold_power};
ghost use Rattle.fold_operands.specs.Operands.{One, Folds};

use chain::Chain;
use chain_arrays::{LONGEST, Power, accepted, word_by_word};
use fold_operands::{append, chain_in, first_element, kind, put_constant, put_sum};
use fold_rows::product_rows;
use plan_rows::kinds::{CONSTANT, LITERAL_POWER, PRODUCT_CHAIN, SUM_CHAIN};

// The chain to the n, trimmed.
fn power_of(f: Chain, n: u64) -> Chain
    requires le_n { 1 ≤ n }
    requires n_bound { f.length * n ≤ 16 }
    ensures { as_chain_answer (Ok result) ≡ answered (chain (trimmed 0 (words 64 (power (take (f.length + 1) f.elements) n)))) }
{
    let kept = chain_arrays::kept(f.elements, f.length);
    accepted(chain_values::power(kept, n))
}

// Chains and operators to the n: S^n if k*n is at most 16, every element of P, or a row.
fn fold_high_power(plan: &mut [u64], first: usize, end: usize, n: u64) -> usize
    requires plan_length_in_bounds { plan_length ≤ length plan.old }
    requires end_lt_most_rows { end < most_rows }
    requires le_n { 2 ≤ n }
    requires n_bound { n ≤ 64 }
    requires one { One plan.old first end }
    requires nonzero { 0 < kind (row plan.old (end - 1)) }
    ensures { Folds (λ s a. fold_power 64 s a n) plan.old first end result plan.new }
{
    let root = end - 1;
    let root_kind = kind(plan, root);
    let f = chain_in(plan, root);
    if root_kind == PRODUCT_CHAIN {
        let powers = word_by_word::<Power>(product_rows::with_ones(f), [n; 17]);
        product_rows::put_product(plan, first, powers);
        return first + 1;
    }
    if root_kind == SUM_CHAIN && f.length * n as usize <= LONGEST {
        put_sum(plan, first, power_of(f, n));
        return first + 1;
    }
    append(plan, end, LITERAL_POWER, root as u64, n);
    end + 1
}

// The operand from row first up to row end, to the n: "A^0 is 1, A^1 is A".
pub fn fold_power(plan: &mut [u64], first: usize, end: usize, n: u64) -> usize
    requires plan_length_in_bounds { plan_length ≤ length plan.old }
    requires end_lt_most_rows { end < most_rows }
    requires n_bound { n ≤ 64 }
    requires one { One plan.old first end }
    ensures { Folds (λ s a. fold_power 64 s a n) plan.old first end result plan.new }
{
    let root = end - 1;
    if kind(plan, root) == CONSTANT {
        let c = word::power(first_element(plan, root), n);
        put_constant(plan, first, c);
        return first + 1;
    }
    if n == 0 {
        put_constant(plan, first, 1);
        return first + 1;
    }
    if n == 1 {
        return end;
    }
    fold_high_power(plan, first, end, n)
}
