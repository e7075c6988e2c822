// Where a row of a plan stands, the row as a part of the plan, and a word of it, for the crates above.
// The table of row kinds is in `kinds`; what is asked of a row is in `plan_sound`.
#![tactic(auto)]

pub mod kinds;

ghost use Rattle.std.specs.Prelude.{◌≡◌, ◌≤◌, ◌<◌, length, get_or};
ghost use Rattle.plan.specs.Measures.{plan_length, row_length, most_rows, row_start};
ghost use Rattle.plan.specs.Plan.{row};

use plan::ROW_WORDS;

// The place of the first word of row r; a row's end is the start of the next one.
pub fn start(r: usize) -> usize
    requires { r ≤ most_rows }
    ensures { result ≡ row_start r }
{
    1 + ROW_WORDS * r
}

// Row r, to read.
// Kept: (a) docs name `row` and `start` with this clause: a longer slice may be lent.
pub fn row<'a>(plan: &'a [u64], r: usize) -> &'a [u64]
    requires plan_length_in_bounds { plan_length ≤ length plan.now }
    requires r_lt_most_rows { r < most_rows }
    ensures result_value { result.now ≡ row plan.now r }
    ensures result_len { length result.now ≡ row_length }
{
    let at = start(r);
    &plan[at..at + ROW_WORDS]
}

// Word i of row r.
pub fn word(plan: &[u64], r: usize, i: usize) -> u64
    requires plan_length_in_bounds { plan_length ≤ length plan.now }
    requires r_lt_most_rows { r < most_rows }
    requires i_lt_row_length { i < row_length }
    ensures { result ≡ get_or (row plan.now r) i 0 }
{
    plan[start(r) + i]
}
