// Sums and differences of operands that stand at the top of a lent plan, as one operator that is told which of the two it is.
// Minus is in `fold_minus`; which operator a node is, is decided in `compile`.
#![tactic(auto)]

ghost use Rattle.std.specs.Prelude.{◌≡◌, ◌&&◌, ◌≤◌, ◌<◌, length};
ghost use Rattle.plan.specs.Measures.{plan_length, most_rows};
ghost use Rattle.chain.specs.Answer.{as_chain_answer, answered};
ghost use Rattle.plan.specs.Row.{word_a, elements};
ghost use Rattle.plan.specs.Plan.{row};
ghost use Rattle.fold_operands.specs.OperandRows.{is_sum_row};
ghost use Rattle.fold_operands.specs.Operands.{One, Two, Folds, FoldsBoth};
ghost use Rattle.fold_sums.specs.ByKind.{row_kind, fold_sum_or_difference, both_outcome, fold_alone};

use chain::{Chain, Refusal};
use fold_minus::fold_minus;
use fold_operands::{Pair, append, chain_in, is_constant, is_sum, put_sum};
use fold_rows::moved_rows;
use plan_rows::kinds::{DIFFERENCE, SUM};

// The operators of this crate.
#[derive(Clone, Copy)]
pub enum Additive {
    Sum,
    Difference,
}

// The kind of the operator's row.
impl From<Additive> for u64 {
    ghost from_gives = { λ operator kind. kind ≡ row_kind operator };

    fn from(operator: Additive) -> u64 {
        match operator {
            Additive::Sum => SUM,
            Additive::Difference => DIFFERENCE,
        }
    }
}

// Both rows are constants or sum chains.
fn both_sums(plan: &[u64], a: usize, b: usize) -> bool
    requires plan_length_in_bounds { plan_length ≤ length plan.now }
    requires a_lt_most_rows { a < most_rows }
    requires b_lt_most_rows { b < most_rows }
    ensures { result ≡ (is_sum_row (row plan.now a) && is_sum_row (row plan.now b)) }
{
    is_sum(plan, a) && is_sum(plan, b)
}

// The chains of two rows, a constant standing as f0: "element by element", "and the same under -".
fn chain_of_both(plan: &[u64], operator: Additive, a: usize, b: usize) -> Result<Chain, Refusal>
    requires plan_length_in_bounds { plan_length ≤ length plan.now }
    requires a_lt_most_rows { a < most_rows }
    requires b_lt_most_rows { b < most_rows }
    ensures { as_chain_answer result ≡ answered (both_outcome 64 (row_kind operator) (elements (row plan.now a)) (word_a (row plan.now a))
        (elements (row plan.now b)) (word_a (row plan.now b))) }
{
    let f = chain_in(plan, a);
    let g = chain_in(plan, b);
    match operator {
        Additive::Sum => chain_calls::sum(f, g),
        Additive::Difference => chain_calls::difference(f, g),
    }
}

// The operand alone, behind the constant 0: "0+A: A", "0-A: as minus A".
fn fold_alone(plan: &mut [u64], operator: Additive, first: usize, end: usize) -> usize
    requires plan_length_in_bounds { plan_length ≤ length plan.old }
    requires end_lt_most_rows { end < most_rows }
    requires one { One plan.old first end }
    ensures { Folds (fold_alone 64 (row_kind operator)) plan.old first end result plan.new }
{
    match operator {
        Additive::Sum => end,
        Additive::Difference => fold_minus(plan, first, end),
    }
}

// The operand before row middle plus the one behind it, or less it: "C+S, S+C, S+S, and the same under -: element by
// element", "A+0, 0+A, A-0: A", "0-A: as minus A".
pub fn fold_sum(plan: &mut [u64], operator: Additive, pair: Pair) -> usize
    requires plan_length_in_bounds { plan_length ≤ length plan.old }
    requires end_lt_most_rows { pair.end < most_rows }
    requires two { Two plan.old pair.left pair.middle pair.end }
    ensures { FoldsBoth (fold_sum_or_difference 64 (row_kind operator)) plan.old pair.left pair.middle pair.end result plan.new }
{
    let Pair { left, middle, end } = pair;
    let left_root = middle - 1;
    let right_root = end - 1;
    if both_sums(plan, left_root, right_root) {
        let both = chain_of_both(plan, operator, left_root, right_root).unwrap();
        put_sum(plan, left, both);
        return left + 1;
    }
    if is_constant(plan, right_root, 0) {
        return right_root;
    }
    if is_constant(plan, left_root, 0) {
        moved_rows::move_down(plan, middle, end);
        return fold_alone(plan, operator, left, right_root);
    }
    let kind = u64::from(operator);
    append(plan, end, kind, left_root as u64, right_root as u64);
    end + 1
}
