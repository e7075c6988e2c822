// Where a run over a job file stands, and what a step and a line answer. What they do is in specs/, its laws in proofs/.
// A whole line is done in `table_lines`, the input is taken step by step in `table_steps`; what a run prints, as 01 says it, is in `table`.
#![tactic(auto)]

use table::{LONGEST_JOB_LINE, LONGEST_LINE, LONGEST_POINT_LINE, MOST_POINTS};

// The bytes that are held of a line under way: a line that has them is over-long, whatever follows.
pub const HELD_AT_MOST: usize = LONGEST_LINE + 1;

// Room for what a line and the end of the input print: a job line and its points, and a `no` line.
pub const MOST_PRINTED: usize = 2 * LONGEST_JOB_LINE + LONGEST_POINT_LINE * MOST_POINTS;

// Which line comes next.
#[derive(Clone, Copy)]
pub enum Awaited {
    Header,
    Defaults,
    Job,
    Nothing,
}

// Where a run stands: the line that comes next, the next job's number, the bytes held of the line under way, and those kept of the defaults line.
// Kept: `held` and `kept` are lengths of buffers that the caller lends anew at each step (`table_steps::step`), so no slice can stand in their place.
// Kept: `number` and `kept` stand beside `awaited`, and not in its variant `Job`: `ready` takes any progress within its bounds, and theorems name them.
#[derive(Clone, Copy)]
pub struct Progress {
    pub awaited: Awaited,
    pub number: u64,
    pub held: usize,
    pub kept: usize,
}

// What a step that is done answers: where the run stands now, the input bytes used and the output bytes written.
#[derive(Clone, Copy)]
pub struct Stepped {
    pub progress: Progress,
    pub used: usize,
    pub wrote: usize,
}

// What a step that is refused answers: a buffer is too short or the progress is out of bounds, and nothing is done.
#[derive(Clone, Copy, Debug, PartialEq, Eq)]
pub struct NotDone;

// Where the run stands after a line, and the bytes that the line printed.
#[derive(Clone, Copy)]
pub struct LineDone {
    pub progress: Progress,
    pub wrote: usize,
}
