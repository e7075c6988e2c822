// A run of a tool over a job file, as steps over lent buffers: each takes the input up to a line feed and writes what the line prints.
// What a whole line does is in `table_lines`; files are read and written in `table_runs`.
#![tactic(auto)]

ghost use Rattle.std.specs.Prelude.{◌≡◌, true, ◌+◌, ◌-◌, ◌^◌, ◌≤◌, ◌<◌, length};
ghost use Rattle.plan.specs.Measures.{plan_length};
ghost use Rattle.table_progress.specs.Runs.{lent};
ghost use Rattle.table_progress.specs.Steps.{started, have_room, is_within_bounds, ready, most_printed, over, held_with, as_stepped, stepped, last_line, finished};

use plan::PLAN_WORDS;
use table::{LONGEST_JOB_LINE, LONGEST_LINE, MOST_POINTS, Tool};
use table_fields::fields;
use table_progress::{Awaited, HELD_AT_MOST, LineDone, MOST_PRINTED, NotDone, Progress, Stepped};

pub fn start() -> Progress
    ensures { result ≡ started }
{
    Progress {
        awaited: Awaited::Header,
        number: 0,
        held: 0,
        kept: 0,
    }
}

// The buffers are long enough.
fn have_room(line: &[u8], defaults: &[u8], plan: &[u64], table: &[u64], out: &[u8]) -> bool
    ensures { result ≡ have_room (length line.now) (length defaults.now) (length plan.now) (length table.now) (length out.now) }
{
    HELD_AT_MOST <= line.len()
        && LONGEST_LINE <= defaults.len()
        && PLAN_WORDS <= plan.len()
        && MOST_POINTS <= table.len()
        && MOST_PRINTED <= out.len()
}

// The bounds that a call asks of a progress; whether a run comes to it is not asked.
fn is_within_bounds(progress: Progress) -> bool
    ensures { result ≡ is_within_bounds progress }
{
    progress.held <= HELD_AT_MOST && progress.kept <= LONGEST_LINE && progress.number < u64::MAX
}

// A call that is not refused.
fn is_ready(
    progress: Progress,
    line: &[u8],
    defaults: &[u8],
    plan: &[u64],
    table: &[u64],
    out: &[u8],
) -> bool
    ensures { result ≡ ready progress (lent line.now defaults.now plan.now table.now out.now) }
{
    have_room(line, defaults, plan, table, out) && is_within_bounds(progress)
}

// More bytes of the line under way, as long as they may matter. Answers how many are held then.
fn hold(line: &mut [u8], held: usize, more: &[u8]) -> usize
    requires in_bounds { 4097 ≤ length line.old }
    requires held_bound { held ≤ 4097 }
    ensures value { result ≡ length (held_with held line.old more.now) }
    ensures line_after { line.new ≡ over (held_with held line.old more.now) line.old }
{
    let taken = (HELD_AT_MOST - held).min(more.len());
    let end = held + taken;
    line[held..end].copy_from_slice(&more[..taken]);
    end
}

// One step: the input up to its first line feed, or all of it where it has none. Lend the buffers again as they were left; `plan`, `table` and `out`
// may be altered between steps.
// Kept: the buffers are parameters, as the contract of the call names them; `last_line` is given them as they came.
pub fn step(
    tool: Tool,
    progress: Progress,
    input: &[u8],
    line: &mut [u8],
    defaults: &mut [u8],
    plan: &mut [u64],
    table: &mut [u64],
    out: &mut [u8],
) -> Result<Stepped, NotDone>
    ensures { record { answer = as_stepped progress result; buffers = lent line.new defaults.new plan.new table.new out.new }
        ≡ stepped tool progress input.now (lent line.old defaults.old plan.old table.old out.old) }
{
    if !is_ready(progress, line, defaults, plan, table, out) {
        return Err(NotDone);
    }
    let end = fields::find(input, 0, b'\n');
    let held = hold(line, progress.held, &input[..end]);
    if end == input.len() {
        return Ok(Stepped {
            progress: Progress { held, ..progress },
            used: end,
            wrote: 0,
        });
    }
    let done = table_lines::end_line(tool, progress, &line[..held], defaults, plan, table, out);
    Ok(Stepped {
        progress: done.progress,
        used: end + 1,
        wrote: done.wrote,
    })
}

// The bytes after the last line feed, if there are any, are a whole line.
fn last_line(
    tool: Tool,
    progress: Progress,
    line: &[u8],
    defaults: &mut [u8],
    plan: &mut [u64],
    table: &mut [u64],
    out: &mut [u8],
) -> LineDone
    requires held_in_bounds { progress.held ≤ length line.now }
    requires in_bounds { 4096 ≤ length defaults.old }
    requires kept_bound { progress.kept ≤ 4096 }
    requires number_bound { progress.number < 2 ^ 64 - 1 }
    requires plan_length_in_bounds { plan_length ≤ length plan.old }
    requires in_bounds_2 { 4096 ≤ length table.old }
    requires most_printed_in_bounds { most_printed ≤ length out.old }
    ensures out_after { record {
      answer = record { ok = true; progress = result.progress; used = 0; wrote = result.wrote };
      buffers = lent line.now defaults.new plan.new table.new out.new;
    }
        ≡ last_line tool progress (lent line.now defaults.old plan.old table.old out.old) }
    ensures wrote_in_bounds { result.wrote + 67 ≤ length out.old }
{
    if progress.held == 0 {
        return LineDone { progress, wrote: 0 };
    }
    let room = out.len() - LONGEST_JOB_LINE;
    table_lines::end_line(
        tool,
        progress,
        &line[..progress.held],
        defaults,
        plan,
        table,
        &mut out[..room],
    )
}

// The end of the input: the bytes after the last line feed, if there are any, are a line as well.
pub fn finish(
    tool: Tool,
    progress: Progress,
    line: &[u8],
    defaults: &mut [u8],
    plan: &mut [u64],
    table: &mut [u64],
    out: &mut [u8],
) -> Result<Stepped, NotDone>
    ensures { record { answer = as_stepped progress result; buffers = lent line.now defaults.new plan.new table.new out.new }
        ≡ finished tool progress (lent line.now defaults.old plan.old table.old out.old) }
{
    if !is_ready(progress, line, defaults, plan, table, out) {
        return Err(NotDone);
    }
    let done = last_line(tool, progress, line, defaults, plan, table, out);
    let more = table_lines::end_input(done.progress.awaited, &mut out[done.wrote..]);
    Ok(Stepped {
        progress: table_lines::ended(),
        used: 0,
        wrote: done.wrote + more,
    })
}
