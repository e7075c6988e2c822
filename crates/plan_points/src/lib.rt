// The points of a sound plan: the values of its rows, one shift of its chains, in place, and both for each word of a table.
// How many points there are is for `plan_fill`, what is counted at each for `plan_fill` and `plan_eras`.
#![tactic(auto)]

ghost use Rattle.std.specs.Prelude.{◌≡◌, ◌<◌, ◌≤◌, true, List, ℕ, ℤ, nat_abs, length};
ghost use Rattle.plan.specs.Measures.{plan_length, row_length, most_rows, element_count};
ghost use Rattle.plan.specs.Row.{kind, word_a, word_b, is_chain};
ghost use Rattle.plan.specs.Plan.{sound};
ghost use Rattle.plan.specs.Points.{row_value, root_value, shifted_row, shifted_plan};
ghost use Rattle.plan.specs.Filling.{plan_after, point_values};
ghost use Rattle.plan.proofs.Counting.{counted_over};

use chain_arrays::{Product, Sum, shift_part};
use plan::{ELEMENTS_START, MOST_ROWS, PlanWords, ROW_WORDS};
use plan_rows::kinds::{PRODUCT_CHAIN, RowKind, SUM_CHAIN};
use plan_rows::row;

// The value of a row, given those of the rows before it.
fn row_value(row: &[u64], values: &[u64]) -> u64
    requires row_len { length row.now ≡ row_length }
    requires row_in_bounds { word_a row.now < length values.now }
    requires row_in_bounds_2 { word_b row.now < length values.now }
    ensures { result ≡ row_value 64 values.now row.now }
{
    let left = values[row[1] as usize];
    let right = values[row[2] as usize];
    match RowKind::try_from(row[0]) {
        Ok(RowKind::Sum) => left.wrapping_add(right),
        Ok(RowKind::Difference) => left.wrapping_sub(right),
        Ok(RowKind::Product) => word::times(left, right),
        Ok(RowKind::Minus) => left.wrapping_neg(),
        Ok(RowKind::LiteralPower) => word::power(left, row[2]),
        Ok(RowKind::Raise) => word::power(left, right),
        _ => row[ELEMENTS_START],
    }
}

// The value of the root. The lent words take the values of the rows.
pub fn root_value(plan: &[u64], values: &mut [u64; MOST_ROWS]) -> u64
    requires plan_length_in_bounds { plan_length ≤ length plan.now }
    requires plan_value { sound plan.now ≡ true }
    ensures { result ≡ root_value 64 plan.now }
{
    let count = plan[0] as usize;
    for r in 0..count {
        values[r] = row_value(row(plan, r), values);
    }
    values[count - 1]
}

// One shift of a row of a sound plan.
fn shift_row(row: &mut [u64])
    requires row_len { length row.old ≡ row_length }
    requires row_bound { word_a row.old < most_rows }
    requires row_bound_2 { is_chain (kind row.old) ≡ true → word_a row.old < element_count }
    ensures { row.new ≡ shifted_row 64 row.old }
{
    // Kept: tried; in a `match` on the row's `RowKind` the last arm becomes a goal for each kind, under names that may not be cited.
    let kind = row[0];
    let end = ELEMENTS_START + (1 + row[1] as usize);
    if kind == SUM_CHAIN {
        shift_part::<Sum>(&mut row[ELEMENTS_START..end]);
        return;
    }
    if kind == PRODUCT_CHAIN {
        shift_part::<Product>(&mut row[ELEMENTS_START..end]);
    }
}

pub fn shift_plan(plan: &mut [u64])
    requires plan_length_in_bounds { plan_length ≤ length plan.old }
    requires plan_value { sound plan.old ≡ true }
    ensures { plan.new ≡ shifted_plan 64 plan.old }
{
    let count = plan[0] as usize;
    for r in 0..count {
        let at = plan_rows::start(r);
        shift_row(&mut plan[at..at + ROW_WORDS]);
    }
}

// What is counted at each point of a fill, of the plan as it stands there: 1, 0 or -1. `counted` says which.
pub trait Count {
    ghost counted: { List ℕ → ℤ };

    fn count(plan: &PlanWords) -> i64
        requires { sound plan.now ≡ true }
        ensures { result ≡ counted plan.now };

    ghost at_most_one: { (plan : List ℕ) → nat_abs (counted plan) ≤ 1 };
}

// One point for each word of the table: the root's value, and then a shift of every chain. What is counted at the points is added up.
pub fn write_points<C: Count>(plan: &mut PlanWords, table: &mut [u64]) -> i64
    requires { sound plan.old ≡ true }
    ensures value { result ≡ counted_over C.counted 64 (length table.old) plan.old }
    ensures table_after { table.new ≡ point_values 64 (length table.old) plan.old }
    ensures plan_after { plan.new ≡ plan_after 64 (length table.old) plan.old }
{
    let mut values = [0; MOST_ROWS];
    let mut sum = 0;
    for word in table.iter_mut() {
        *word = root_value(plan, &mut values);
        sum += C::count(plan);
        shift_plan(plan);
    }
    sum
}
