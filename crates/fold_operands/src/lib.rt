// Words of the rows of operands that stand in a lent plan: read for the tests of the folding rules, written for what the rules leave.
// Which rule applies, and what it leaves, is decided in the crates `fold_sums`, `fold_minus`, `fold_products`, `fold_powers` and `fold_raises`.
#![tactic(auto)]

ghost use Rattle.std.specs.Prelude.{◌≡◌, cond, [], ◌∷◌, ◌++◌, ◌<◌, eqb, ◌≤◌, length};
ghost use Rattle.plan.specs.Measures.{plan_length, most_rows};
ghost use Rattle.plan.specs.Row.{kind, word_a, elements, first_element};
ghost use Rattle.plan.specs.Plan.{row};
ghost use Rattle.fold.specs.Folded.{constant};
ghost use Rattle.fold.specs.Layout.{row_words};
ghost use Rattle.fold_operands.specs.OperandRows.{is_constant_row, is_sum_row};
ghost use Rattle.fold_rows.specs.Standing.{with_row, placed, no_span};

use chain::Chain;
use plan::ELEMENTS_START;
use plan_rows::kinds::{CONSTANT, SUM_CHAIN};
use plan_rows::word;

// Where two operands stand, one behind the other: the left one from row `left` on, the right one from row `middle` on, up to row `end`.
#[derive(Clone, Copy)]
pub struct Pair {
    pub left: usize,
    pub middle: usize,
    pub end: usize,
}

// The kind of row r.
// Kept: a row of a lent plan may hold any word as its kind, and the contract is of every row.
pub fn kind(plan: &[u64], r: usize) -> u64
    requires plan_length_in_bounds { plan_length ≤ length plan.now }
    requires r_lt_most_rows { r < most_rows }
    ensures { result ≡ kind (row plan.now r) }
{
    word(plan, r, 0)
}

// The length of the chain in row r; a constant has length 0.
pub fn length_of(plan: &[u64], r: usize) -> usize
    requires plan_length_in_bounds { plan_length ≤ length plan.now }
    requires r_lt_most_rows { r < most_rows }
    ensures { result ≡ word_a (row plan.now r) }
{
    word(plan, r, 1) as usize
}

// The chain in row r; a constant is one of length 0.
pub fn chain_in(plan: &[u64], r: usize) -> Chain
    requires plan_length_in_bounds { plan_length ≤ length plan.now }
    requires r_lt_most_rows { r < most_rows }
    ensures has_length { result.length ≡ word_a (row plan.now r) }
    ensures has_elements { result.elements ≡ elements (row plan.now r) }
{
    Chain {
        length: length_of(plan, r),
        elements: fold_rows::elements(plan, r),
    }
}

// Element 0 of row r.
pub fn first_element(plan: &[u64], r: usize) -> u64
    requires plan_length_in_bounds { plan_length ≤ length plan.now }
    requires r_lt_most_rows { r < most_rows }
    ensures { result ≡ first_element (row plan.now r) }
{
    word(plan, r, ELEMENTS_START)
}

// Row r is the constant n.
pub fn is_constant(plan: &[u64], r: usize, n: u64) -> bool
    requires plan_length_in_bounds { plan_length ≤ length plan.now }
    requires r_lt_most_rows { r < most_rows }
    ensures { result ≡ is_constant_row n (row plan.now r) }
{
    kind(plan, r) == CONSTANT && first_element(plan, r) == n
}

// Row r is a constant or a sum chain.
pub fn is_sum(plan: &[u64], r: usize) -> bool
    requires plan_length_in_bounds { plan_length ≤ length plan.now }
    requires r_lt_most_rows { r < most_rows }
    ensures { result ≡ is_sum_row (row plan.now r) }
{
    kind(plan, r) <= SUM_CHAIN
}

// An operator's row behind its operands.
// Kept: `kind` is a number, since the contract is of every number, and an enum would ask more of callers.
pub fn append(plan: &mut [u64], end: usize, kind: u64, a: u64, b: u64)
    requires plan_length_in_bounds { plan_length ≤ length plan.old }
    requires end_lt_most_rows { end < most_rows }
    ensures { plan.new ≡ with_row plan.old end (row_words kind a b [] no_span) }
{
    fold_rows::write(plan, end, kind, a, b, chain_arrays::zeros());
}

// The row of a trimmed sum chain.
pub fn put_sum(plan: &mut [u64], r: usize, f: Chain)
    requires plan_length_in_bounds { plan_length ≤ length plan.old }
    requires r_lt_most_rows { r < most_rows }
    ensures { plan.new ≡ with_row plan.old r (cond (eqb f.length 0) 0 1 ∷ f.length ∷ 0 ∷ f.elements ++ 0 ∷ 0 ∷ []) }
{
    fold_rows::put_chain(plan, r, SUM_CHAIN, f);
}

// The row of the constant c.
pub fn put_constant(plan: &mut [u64], r: usize, c: u64)
    requires plan_length_in_bounds { plan_length ≤ length plan.old }
    requires r_lt_most_rows { r < most_rows }
    ensures { plan.new ≡ placed plan.old r no_span (constant c) }
{
    let mut e = chain_arrays::zeros();
    e[0] = c;
    fold_rows::write(plan, r, CONSTANT, 0, 0, e);
}
