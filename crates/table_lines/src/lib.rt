// What a whole line does, in a run of either tool: the header, the defaults line, a job.
// How lines are found in the input is for `table_steps`.
#![tactic(auto)]

ghost use Rattle.std.specs.Prelude.{◌≡◌, List, ℕ, ◌+◌, ◌-◌, ◌*◌, ◌^◌, ◌≤◌, ◌<◌, length};
ghost use Rattle.plan.specs.Measures.{plan_length};
ghost use Rattle.table.specs.declared.Tool.{Tool};
ghost use Rattle.table.specs.Judged.{as_job_line};
ghost use Rattle.table_jobs.specs.Placed.{placed_job_line};
ghost use Rattle.table.specs.Lines.{no_line};
ghost use Rattle.table_fields.specs.Writing.{Wrote};
ghost use Rattle.table_progress.specs.Printed.{job_prints};
ghost use Rattle.table_progress.specs.Run.{the_header, the_defaults, a_job, line_prints, end_prints};
ghost use Rattle.table_progress.specs.Steps.{ended, awaited_by, awaits, progress_by, progress_after, defaults_after, plan_after_line, table_after_line};
ghost use Rattle.table_progress.specs.declared.Awaited.TheVariants.{Header, Defaults, Job};

use plan::PLAN_WORDS;
use table::{BadLine, MOST_POINTS, Tool};
use table_fields::fields;
use table_progress::{Awaited, LineDone, Progress};

// No line is awaited any more.
pub fn ended() -> Progress
    ensures { result ≡ ended }
{
    Progress {
        awaited: Awaited::Nothing,
        number: 0,
        held: 0,
        kept: 0,
    }
}

// A header line that is refused, or none.
fn print_bad_header(out: &mut [u8]) -> usize
    requires { 67 ≤ length out.old }
    ensures { Wrote out.old 0 (no_line 0 12 0) result out.new }
{
    table_job_lines::write_no_line(out, 0, 12, 0)
}

// "a line `chain-jobs`, tab, `1`", or the run ends.
fn end_header(line: &[u8], out: &mut [u8]) -> LineDone
    requires { 67 ≤ length out.old }
    ensures progress_value { result.progress ≡ progress_by Header 0 0 line.now }
    ensures wrote { (tool : Tool) → Wrote out.old 0 (line_prints tool the_header line.now) result.wrote out.new }
{
    if !table_line_checks::is_header(line) {
        return LineDone {
            progress: ended(),
            wrote: print_bad_header(out),
        };
    }
    LineDone {
        progress: Progress {
            awaited: Awaited::Defaults,
            ..ended()
        },
        wrote: 0,
    }
}

// A defaults line that is taken is kept, or the run ends.
fn end_defaults(line: &[u8], defaults: &mut [u8], out: &mut [u8]) -> LineDone
    requires in_bounds { 4096 ≤ length defaults.old }
    requires in_bounds_2 { 67 ≤ length out.old }
    ensures progress_value { result.progress ≡ progress_by Defaults 0 0 line.now }
    ensures wrote { (tool : Tool) → Wrote out.old 0 (line_prints tool the_defaults line.now) result.wrote out.new }
    ensures defaults_after { defaults.new ≡ defaults_after the_defaults line.now defaults.old }
{
    if let Err(bad) = table_line_checks::judge_defaults(line) {
        return LineDone {
            progress: ended(),
            wrote: table_jobs::print_bad_line(0, bad, out),
        };
    }
    defaults[..line.len()].copy_from_slice(line);
    LineDone {
        progress: Progress {
            awaited: Awaited::Job,
            number: 1,
            kept: line.len(),
            ..ended()
        },
        wrote: 0,
    }
}

// A judged job line, a refusal by its place.
fn by_place(job: Result<table::Job, BadLine>) -> Result<table::Job, u64>
    ensures { placed_job_line result ≡ as_job_line job }
{
    job.map_err(|bad| bad.place())
}

// A job line, with the defaults that were kept.
// Kept: the buffers are parameters, here and in `end_line`. A struct that lends them shows what it leaves as nested pairs (`lent.exit.1.1.0.now`), and lent as
// `&mut` asks a clause a buffer that it is still the same one.
fn end_job<'a>(
    tool: Tool,
    progress: Progress,
    line: &'a [u8],
    defaults: &'a [u8],
    plan: &mut [u64],
    table: &mut [u64],
    out: &mut [u8],
) -> LineDone
    requires number_bound { progress.number < 2 ^ 64 - 1 }
    requires plan_length_in_bounds { plan_length ≤ length plan.old }
    requires in_bounds { 4096 ≤ length table.old }
    requires in_bounds_2 { 67 + 42 * 4096 ≤ length out.old }
    ensures progress_value { result.progress ≡ progress_by Job progress.number progress.kept line.now }
    ensures wrote { Wrote out.old 0 (job_prints tool progress.number line.now defaults.now) result.wrote out.new }
    ensures plan_after { plan.new ≡ plan_after_line tool (a_job defaults.now progress.number) line.now plan.old }
    ensures table_after { table.new ≡ table_after_line tool (a_job defaults.now progress.number) line.now table.old }
{
    let wrote = table_jobs::print_job(
        tool,
        progress.number,
        by_place(table_line_checks::judge_job(line, defaults)),
        fields::pick(line, defaults, 1),
        &mut plan[..PLAN_WORDS],
        &mut table[..MOST_POINTS],
        out,
    );
    LineDone {
        progress: Progress {
            awaited: Awaited::Job,
            number: progress.number + 1,
            held: 0,
            ..progress
        },
        wrote,
    }
}

// The line that was awaited is whole.
pub fn end_line(
    tool: Tool,
    progress: Progress,
    line: &[u8],
    defaults: &mut [u8],
    plan: &mut [u64],
    table: &mut [u64],
    out: &mut [u8],
) -> LineDone
    requires in_bounds { 4096 ≤ length defaults.old }
    requires kept_bound { progress.kept ≤ 4096 }
    requires number_bound { progress.number < 2 ^ 64 - 1 }
    requires plan_length_in_bounds { plan_length ≤ length plan.old }
    requires in_bounds_2 { 4096 ≤ length table.old }
    requires in_bounds_3 { 67 + 42 * 4096 ≤ length out.old }
    ensures progress_value { result.progress ≡ progress_after progress line.now }
    ensures wrote { Wrote out.old 0 (line_prints tool (awaits progress defaults.old) line.now) result.wrote out.new }
    ensures defaults_after { defaults.new ≡ defaults_after (awaits progress defaults.old) line.now defaults.old }
    ensures plan_after { plan.new ≡ plan_after_line tool (awaits progress defaults.old) line.now plan.old }
    ensures table_after { table.new ≡ table_after_line tool (awaits progress defaults.old) line.now table.old }
{
    match progress.awaited {
        Awaited::Header => end_header(line, out),
        Awaited::Defaults => end_defaults(line, defaults, out),
        Awaited::Job => {
            let kept = &defaults[..progress.kept];
            end_job(tool, progress, line, kept, plan, table, out)
        }
        Awaited::Nothing => LineDone {
            progress: ended(),
            wrote: 0,
        },
    }
}

// What the end of the input prints.
pub fn end_input(awaited: Awaited, out: &mut [u8]) -> usize
    requires { 67 ≤ length out.old }
    ensures { (n kept : ℕ) (buffer : List ℕ) → Wrote out.old 0 (end_prints (awaited_by awaited n kept buffer)) result out.new }
{
    match awaited {
        Awaited::Header => print_bad_header(out),
        Awaited::Defaults => table_jobs::print_bad_line(0, BadLine::Misshapen, out),
        Awaited::Job | Awaited::Nothing => 0,
    }
}
