// Rows of a lent plan, read and written: elements, chains and operators, without their spans, and a span put into a row that stands.
// Product chains are put into rows by `fold_rows::product_rows`, rows moved down by `fold_rows::moved_rows`; which operands fold is decided in the crates above.
#![tactic(auto)]

pub mod moved_rows;
pub mod product_rows;

ghost use Rattle.std.specs.Prelude.{◌≡◌, cond, [], ◌∷◌, ◌++◌, ◌≤◌, ◌<◌, eqb, length};
ghost use Rattle.plan.specs.Measures.{plan_length, row_length, most_rows};
ghost use Rattle.plan.specs.Row.{elements};
ghost use Rattle.plan.specs.Plan.{row};
ghost use Rattle.formula.specs.Tree.{span};
ghost use Rattle.fold_rows.specs.Standing.{with_row, with_span};

use chain::Chain;
use plan::{ELEMENTS_START, ROW_WORDS, SPAN_START};
use plan_rows::kinds::CONSTANT;
use plan_rows::row;

// The 17 element words of row r.
pub fn elements(plan: &[u64], r: usize) -> [u64; 17]
    requires plan_length_in_bounds { plan_length ≤ length plan.now }
    requires r_lt_most_rows { r < most_rows }
    ensures { result ≡ elements (row plan.now r) }
{
    let words = row(plan, r);
    let mut e = chain_arrays::zeros();
    e.copy_from_slice(&words[ELEMENTS_START..SPAN_START]);
    e
}

// All words of a row, without a span.
fn write_row(row: &mut [u64], kind: u64, a: u64, b: u64, elements: [u64; 17])
    requires { length row.old ≡ row_length }
    ensures { row.new ≡ kind ∷ a ∷ b ∷ elements ++ 0 ∷ 0 ∷ [] }
{
    row[0] = kind;
    row[1] = a;
    row[2] = b;
    row[ELEMENTS_START..SPAN_START].copy_from_slice(&elements);
    row[SPAN_START] = 0;
    row[SPAN_START + 1] = 0;
}

// The span of row r: first byte and end byte of the text that it came from.
pub fn put_span(plan: &mut [u64], r: usize, first: u64, end: u64)
    requires plan_length_in_bounds { plan_length ≤ length plan.old }
    requires r_lt_most_rows { r < most_rows }
    ensures { plan.new ≡ with_row plan.old r (with_span (row plan.old r) (span first end)) }
{
    let at = plan_rows::start(r) + SPAN_START;
    plan[at] = first;
    plan[at + 1] = end;
}

// Row r written anew, without a span.
pub fn write(plan: &mut [u64], r: usize, kind: u64, a: u64, b: u64, elements: [u64; 17])
    requires plan_length_in_bounds { plan_length ≤ length plan.old }
    requires r_lt_most_rows { r < most_rows }
    ensures { plan.new ≡ with_row plan.old r (kind ∷ a ∷ b ∷ elements ++ 0 ∷ 0 ∷ []) }
{
    let at = plan_rows::start(r);
    write_row(&mut plan[at..at + ROW_WORDS], kind, a, b, elements);
}

// The row of a chain of the given kind; a chain of length 0 is a constant.
// Kept: `kind` is a number, since the contract is of every number, and an enum would ask more of callers.
pub fn put_chain(plan: &mut [u64], r: usize, kind: u64, f: Chain)
    requires plan_length_in_bounds { plan_length ≤ length plan.old }
    requires r_lt_most_rows { r < most_rows }
    ensures { plan.new ≡ with_row plan.old r (cond (eqb f.length 0) 0 kind ∷ f.length ∷ 0 ∷ f.elements ++ 0 ∷ 0 ∷ []) }
{
    let row_kind = if f.length == 0 { CONSTANT } else { kind };
    write(plan, r, row_kind, f.length as u64, 0, f.elements);
}
