// Rows moved down by one, with the operand rows that they name and with their spans.
// Which rule drops the row before them is decided in the crates above.
ghost use Rattle.std.specs.Prelude.{◌≡◌, cond, ◌-◌, ◌≤◌, ◌<◌, length};
ghost use Rattle.plan.specs.Measures.{plan_length, most_rows};
ghost use Rattle.plan.specs.Plan.{row};
ghost use Rattle.fold_rows.specs.Standing.{with_row, lowered, moved_down};

use crate::{elements, put_span, write};
use plan::SPAN_START;
use plan_rows::kinds::operand_count;
use plan_rows::word;

// A word of a row that is moved down: one less if it names a row.
fn lowered(word: u64, named: bool) -> u64
    ensures { result ≡ cond named (word - 1) word }
{
    if named { word.saturating_sub(1) } else { word }
}

fn move_row(plan: &mut [u64], r: usize)
    requires plan_length_in_bounds { plan_length ≤ length plan.old }
    requires le_r { 1 ≤ r }
    requires r_lt_most_rows { r < most_rows }
    ensures { plan.new ≡ with_row plan.old (r - 1) (lowered (row plan.old r)) }
{
    let kind = word(plan, r, 0);
    let operands = operand_count(kind);
    let a = lowered(word(plan, r, 1), 0 < operands);
    let b = lowered(word(plan, r, 2), operands == 2);
    let first = word(plan, r, SPAN_START);
    let end = word(plan, r, SPAN_START + 1);
    let e = elements(plan, r);
    let below = r - 1;
    write(plan, below, kind, a, b, e);
    put_span(plan, below, first, end);
}

// The rows from first up to end, each moved down by one.
pub fn move_down(plan: &mut [u64], first: usize, end: usize)
    requires plan_length_in_bounds { plan_length ≤ length plan.old }
    requires le_first { 1 ≤ first }
    requires first_le_end { first ≤ end }
    requires end_le_most_rows { end ≤ most_rows }
    ensures { plan.new ≡ moved_down first (end - first) plan.old }
{
    for r in first..end {
        move_row(plan, r);
    }
}
