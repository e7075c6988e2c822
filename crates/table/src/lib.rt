// What is found in a line of a job file. What lines, fields and numbers are, and what a run prints, is in specs/, laws of it in proofs/.
// The code that takes a line apart is in `table_fields`, that which prints in the crates above.
#![tactic(auto)]

ghost use Rattle.std.specs.Prelude.{◌≡◌};
ghost use Rattle.table.specs.Judged.{bad_place};

// "line over 4,096 bytes": the longest line of a job file that is not refused.
pub const LONGEST_LINE: usize = 4096;

// "count is 0 to 4,096.": as many points as a table has words.
pub const MOST_POINTS: usize = 4096;

// The longest `no` or `job` line that is printed: the word, and three numbers of at most twenty digits, each behind a tab.
pub const LONGEST_JOB_LINE: usize = 67;

// The longest line of a point: an index, and a value of at most twenty digits behind a tab.
pub const LONGEST_POINT_LINE: usize = 42;

// The tools that run over a job file: the table printer, which prints an accepted job's points, and the row explainer, which prints its rows and why they are
// still there.
#[derive(Clone, Copy)]
pub enum Tool {
    Tables,
    Reasons,
}

// The numbers of a job line that is taken.
#[derive(Clone, Copy, Debug, PartialEq, Eq)]
pub struct Job {
    pub start: u64,
    pub step: u64,
    pub count: u64,
}

// What a line is refused for with 11: its shape, or the field that is bad.
#[derive(Clone, Copy, Debug, PartialEq, Eq)]
pub enum BadLine {
    Misshapen,
    Formula,
    Start,
    Step,
    Count,
}

impl BadLine {
    // The place that is printed: 0, or the number of the field.
    pub fn place(self) -> u64
        ensures { result ≡ bad_place self }
    {
        match self {
            BadLine::Misshapen => 0,
            BadLine::Formula => 1,
            BadLine::Start => 2,
            BadLine::Step => 3,
            BadLine::Count => 4,
        }
    }
}
