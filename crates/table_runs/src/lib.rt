// A whole run of a tool: reads a job file and writes what the tool prints to standard output.
// What a run prints is decided in `table_steps`; here bytes are read and written, and buffers are lent.
#![tactic(auto)]

ghost use Rattle.std.specs.Prelude.{◌≡◌, ◌≤◌, length, IfOk, OnErr};
ghost use Rattle.table_runs.specs.declared.TheConstants.{OUTPUT_BYTES};

use plan::PLAN_WORDS;
use std::io;
use std::io::Read;
use table::{LONGEST_LINE, MOST_POINTS, Tool};
use table_progress::{HELD_AT_MOST, MOST_PRINTED, NotDone, Progress};

// The bytes that are read at once.
const INPUT_BYTES: usize = 65536;

// The output buffer: what several lines print is written at once.
const OUTPUT_BYTES: usize = 262144;

// What ends a run before the end of its input: a step that is not done, or a write that fails.
#[derive(Drop)]
enum Stop {
    NotDone,
    Failed(io::Error),
}

impl From<NotDone> for Stop {
    fn from(_not_done: NotDone) -> Stop {
        Stop::NotDone
    }
}

impl From<io::Error> for Stop {
    fn from(error: io::Error) -> Stop {
        Stop::Failed(error)
    }
}

// Tells on standard error what failed, and why.
fn tell(rt: &impl Eprint, what: &str, error: io::Error) {
    let _ = eprintln!(rt; "{what}: {error}");
}

// Writes the bytes. A failure is told on standard error.
fn write<R: Print + Eprint>(rt: &R, bytes: &[u8]) -> io::Result<()> {
    rt.write_all(bytes)
        .inspect_err(|error| tell(rt, "write", *error))
}

// Reads into the buffer: how many bytes came, 0 at the end of the input. A failure is told on standard error.
fn read(rt: &impl Eprint, from: &mut impl Read, input: &mut [u8]) -> io::Result<usize>
    ensures { IfOk result (λ got. got ≤ length input.new) }
{
    from.read(input)
        .inspect_err(|error| tell(rt, "read", *error))
}

// A run: where it stands, its buffers, and how much of the output buffer is filled.
#[derive(Drop)]
struct ToolRun {
    tool: Tool,
    progress: Progress,
    line: [u8; HELD_AT_MOST],
    defaults: [u8; LONGEST_LINE],
    plan: [u64; PLAN_WORDS],
    table: [u64; MOST_POINTS],
    out: [u8; OUTPUT_BYTES],
    filled: usize,
    ghost within: { filled ≤ OUTPUT_BYTES },
}

impl ToolRun {
    // Writes what fills the output buffer. Where that fails, nothing has changed.
    fn flush<R: Print + Eprint>(&mut self, rt: &R) -> io::Result<()>
        ensures { OnErr result (self.new ≡ self.old) }
    {
        write(rt, &self.out[..self.filled])?;
        self.filled = 0;
        Ok(())
    }

    // Room for what a step prints. Where the write that makes it fails, nothing has changed.
    fn make_room<R: Print + Eprint>(&mut self, rt: &R) -> io::Result<()>
        ensures { OnErr result (self.new ≡ self.old) }
    {
        if self.out.len() - self.filled < MOST_PRINTED {
            self.flush(rt)?;
        }
        Ok(())
    }

    // A step, which writes behind the filled part of the output buffer. Answers how much of the input it used.
    fn step(&mut self, input: &[u8]) -> Result<usize, NotDone>
        ensures used_in_bounds { IfOk result (λ used. used ≤ length input.now) }
        ensures moves { IfOk result (λ used. 1 ≤ length input.now → 1 ≤ used) }
    {
        let filled = self.filled;
        let stepped = table_steps::step(
            self.tool,
            self.progress,
            input,
            &mut self.line,
            &mut self.defaults,
            &mut self.plan,
            &mut self.table,
            &mut self.out[filled..],
        )?;
        self.progress = stepped.progress;
        self.filled = filled + stepped.wrote;
        Ok(stepped.used)
    }

    // All steps over some input, and what they print written.
    // Kept: a `while`, since each step tells anew how far it came, and one that is not done ends the run.
    fn take<R: Print + Eprint>(&mut self, rt: &R, input: &[u8]) -> Result<(), Stop> {
        let mut left = input;
        while !left.is_empty() {
            self.make_room(rt)?;
            let used = self.step(left)?;
            left = &left[used..];
        }
        self.flush(rt)?;
        Ok(())
    }

    // The end of the input, and what it prints written.
    fn end<R: Print + Eprint>(&mut self, rt: &R) -> io::Result<()> {
        let finished = table_steps::finish(
            self.tool,
            self.progress,
            &self.line,
            &mut self.defaults,
            &mut self.plan,
            &mut self.table,
            &mut self.out,
        );
        match finished {
            Ok(stepped) => write(rt, &self.out[..stepped.wrote]),
            Err(NotDone) => Ok(()),
        }
    }

    // Reads to the end of the input or until a read or a write fails; a read that fails ends the input. Before it reads, and perhaps waits, all that the input
    // so far prints is written. A proved loop has to end, and nothing says that an input does: the loop counts its turns, up to a number that no run
    // comes to.
    fn read_and_write<R: Print + Eprint>(
        &mut self,
        rt: &R,
        from: &mut impl Read,
    ) -> Result<(), Stop> {
        let mut input = [0; INPUT_BYTES];
        let mut outcome = Ok(());
        for _turn in 0..u64::MAX {
            match read(rt, from, &mut input) {
                Ok(0) => break,
                Ok(got) => self.take(rt, &input[..got])?,
                Err(error) => {
                    outcome = Err(Stop::Failed(error));
                    break;
                }
            }
        }
        self.end(rt)?;
        outcome
    }
}

// A run with buffers of its own. A read or a write that fails is its answer too.
pub fn run<R: Print + Eprint>(rt: &R, from: &mut impl Read, tool: Tool) -> io::Result<()> {
    let mut tool_run = ToolRun {
        tool,
        progress: table_steps::start(),
        line: [0; HELD_AT_MOST],
        defaults: [0; LONGEST_LINE],
        plan: [0; PLAN_WORDS],
        table: [0; MOST_POINTS],
        out: [0; OUTPUT_BYTES],
        filled: 0,
    };
    match tool_run.read_and_write(rt, from) {
        Err(Stop::Failed(error)) => Err(error),
        Err(Stop::NotDone) | Ok(()) => Ok(()),
    }
}
