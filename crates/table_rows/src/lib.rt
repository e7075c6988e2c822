// The rows of a formula's plan, printed for the row explainer: those of kinds 3 to 8, each with its reason.
// The line of a row is written in `table_row_lines`, its reason found in `reason_call`; what else a job prints is for `table_jobs`.
#![tactic(auto)]

ghost use Rattle.std.specs.Prelude.{◌≡◌, ◌+◌, ◌*◌, ◌≤◌, ◌<◌, length};
ghost use Rattle.plan.specs.Measures.{most_rows};
ghost use Rattle.plan.specs.Plan.{row_count, refusal};
ghost use Rattle.table_fields.specs.Writer.{HasRoom, Writes};
ghost use Rattle.table_fields.specs.Writing.{Wrote};
ghost use Rattle.table_progress.specs.Printed.{TextsWithin, row_prints, rows_print};

use plan_rows::row;
use table_fields::writer::Writer;
use table_row_lines::write_row_line;

// What row r prints.
fn write_row(writer: &mut Writer<'_>, formula: &[u8], plan: &[u64], r: usize)
    requires plan_value { refusal plan.now ≡ 0 }
    requires texts_within { TextsWithin formula.now plan.now }
    requires r_bound { r < row_count plan.now }
    requires room { HasRoom writer.old 1164 }
    ensures wrote { Writes writer.old (row_prints formula.now plan.now r) writer.new }
    ensures upper_bound { writer.new.at ≤ writer.old.at + 1164 }
{
    let Some(reason) = reason_call::row_reason(plan, r) else {
        return;
    };
    let words = row(plan, r);
    let cost = plan_costs::row_cost(words);
    write_row_line(writer, formula, r as u64, words, cost, reason);
}

// What all rows print, in row order.
// Kept: the buffer and its place come apart, since what `table_jobs` promises speaks of the lent buffer, of which a writer would hold a reference.
pub fn write_rows(out: &mut [u8], at: usize, formula: &[u8], plan: &[u64]) -> usize
    requires plan_value { refusal plan.now ≡ 0 }
    requires texts_within { TextsWithin formula.now plan.now }
    requires most_rows_in_bounds { at + 1164 * most_rows ≤ length out.old }
    ensures { Wrote out.old at (rows_print formula.now plan.now (row_count plan.now)) result out.new }
{
    let mut writer = Writer { out, at };
    for r in 0..plan[0] as usize {
        write_row(&mut writer, formula, plan, r);
    }
    writer.at
}
