// A job printed into a lent buffer by either tool: the formula compiled, and its points filled or its rows explained.
// Which line is a job, and which of its fields are whose, is decided in `table_lines` and `table_fields`.
#![tactic(auto)]

ghost use Rattle.std.specs.Prelude.{◌≡◌, ◌+◌, ◌*◌, ◌≤◌, length};
ghost use Rattle.plan.specs.Measures.{plan_length};
ghost use Rattle.plan.specs.Plan.{refusal};
ghost use Rattle.plan.specs.Filling.{point_values};
ghost use Rattle.table_fields.specs.Writing.{Wrote};
ghost use Rattle.table.specs.declared.Tool.TheVariants.{Tables};
ghost use Rattle.table.specs.Judged.{bad_place, as_job_line};
ghost use Rattle.table.specs.Lines.{no_line, point_lines};
ghost use Rattle.table_progress.specs.Printed.{TextsWithin, plan_left, table_left, PlanPrinted, JobPrinted};
ghost use Rattle.table_jobs.specs.Placed.{placed_job_line};

use table::{BadLine, Job, Tool};

// A line that is refused: with number 0 the defaults line. What a refused job line prints is the same, and its place may be any.
pub fn print_bad_line(n: u64, bad: BadLine, out: &mut [u8]) -> usize
    requires { 67 ≤ length out.old }
    ensures { Wrote out.old 0 (no_line n 11 (bad_place bad)) result out.new }
{
    table_job_lines::write_no_line(out, n, 11, bad.place())
}

// The points of a compiled plan: a line for each word of the table.
// Kept: the buffer and its place come apart, as in `table_job_lines::write_points`.
fn print_points(plan: &mut [u64], table: &mut [u64], out: &mut [u8], at: usize) -> usize
    requires plan_value { refusal plan.old ≡ 0 }
    requires table_len_bound { length table.old ≤ 4096 }
    requires table_in_bounds { at + 42 * length table.old ≤ length out.old }
    ensures wrote { Wrote out.old at (point_lines 0 (point_values 64 (length table.old) plan.old)) result out.new }
    ensures plan_after { plan.new ≡ plan_left Tables (length table.old) plan.old }
    ensures table_after { table.new ≡ table_left Tables (length table.old) plan.old table.old }
{
    let _ = plan_fill::fill(plan, table, u64::MAX);
    table_job_lines::write_points(out, at, table)
}

// Job n by its formula's compiled plan: the `job` line, and what the tool prints behind it.
fn print_plan(
    tool: Tool,
    n: u64,
    formula: &[u8],
    plan: &mut [u64],
    table: &mut [u64],
    out: &mut [u8],
) -> usize
    requires plan_value { refusal plan.old ≡ 0 }
    requires texts_within { TextsWithin formula.now plan.old }
    requires table_len_bound { length table.old ≤ 4096 }
    requires in_bounds { 67 + 42 * 4096 ≤ length out.old }
    ensures { PlanPrinted tool n formula.now plan.old table.old out.old result
        plan.new table.new out.new }
{
    let cost = plan_costs::cost(plan).unwrap_or(0);
    let at = table_job_lines::write_job_line(out, n, plan[0], cost);
    match tool {
        Tool::Tables => print_points(plan, table, out, at),
        Tool::Reasons => table_rows::write_rows(out, at, formula, plan),
    }
}

// A job whose line is taken: compiled and printed, or refused as its formula is.
fn print_taken(
    tool: Tool,
    n: u64,
    job: Job,
    formula: &[u8],
    plan: &mut [u64],
    table: &mut [u64],
    out: &mut [u8],
) -> usize
    requires plan_len { length plan.old ≡ plan_length }
    requires count_in_bounds { job.count ≤ length table.old }
    requires table_len_bound { length table.old ≤ 4096 }
    requires in_bounds { 67 + 42 * 4096 ≤ length out.old }
    ensures { JobPrinted tool n (as_job_line (Ok job)) formula.now plan.old table.old out.old result
        plan.new table.new out.new }
{
    if let Err(refusal) = compile::compile(formula, job.start, job.step, plan) {
        return table_job_lines::write_no_line(out, n, refusal.number(), refusal.place());
    }
    let points = &mut table[..job.count as usize];
    print_plan(tool, n, formula, plan, points, out)
}

// Job n as its line was judged, a refusal by its place, with the formula taken: what it prints from place 0 on. Answers the place behind it.
pub fn print_job(
    tool: Tool,
    n: u64,
    job: Result<Job, u64>,
    formula: &[u8],
    plan: &mut [u64],
    table: &mut [u64],
    out: &mut [u8],
) -> usize
    requires plan_len { length plan.old ≡ plan_length }
    requires count_in_bounds { (placed_job_line job).count ≤ length table.old }
    requires table_len_bound { length table.old ≤ 4096 }
    requires in_bounds { 67 + 42 * 4096 ≤ length out.old }
    ensures { JobPrinted tool n (placed_job_line job) formula.now plan.old table.old out.old result
        plan.new table.new out.new }
{
    match job {
        Ok(job) => print_taken(tool, n, job, formula, plan, table, out),
        Err(place) => table_job_lines::write_no_line(out, n, 11, place),
    }
}
