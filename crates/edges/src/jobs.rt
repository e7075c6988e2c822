// A whole job file, run by the steps of a run, and what they wrote.
// A line writes it with > for a tab and / for a line feed, and so is the output shown. Where a line prints much, it is told by a checksum.
ghost use Rattle.std.specs.Prelude.{◌≤◌, length};

use edges_text::{notation, words};
use std::io;
use table::{LONGEST_LINE, MOST_POINTS, Tool};
use table_progress::{HELD_AT_MOST, MOST_PRINTED, NotDone, Stepped};

// The most bytes that are shown of what a line prints.
const MOST_SHOWN: usize = 400;

// The buffers that are lent to a run.
#[derive(Drop)]
struct Buffers {
    line: [u8; HELD_AT_MOST],
    defaults: [u8; LONGEST_LINE],
    plan: [u64; plan::PLAN_WORDS],
    table: [u64; MOST_POINTS],
    out: [u8; MOST_PRINTED],
}

// The byte that stands for another, either way round.
fn exchanged(byte: u8) -> u8 {
    match byte {
        b'>' => b'\t',
        b'\t' => b'>',
        b'/' => b'\n',
        b'\n' => b'/',
        _ => byte,
    }
}

fn exchange(bytes: &mut [u8]) {
    for byte in bytes.iter_mut() {
        *byte = exchanged(*byte);
    }
}

// Shows what a step wrote. One that is refused is told.
fn show(rt: &impl Print, stepped: Result<Stepped, NotDone>, out: &mut [u8]) -> io::Result<()> {
    let Ok(Stepped { wrote, .. }) = stepped else {
        return rt.print(" not done");
    };
    let count = wrote.min(out.len());
    let shown = &mut out[..count];
    exchange(shown);
    if count <= MOST_SHOWN {
        return rt.write_all(shown);
    }
    print!(rt; " sum {} of {count} bytes/", words::checksum(shown))
}

// Runs the input to its end, in pieces whose sizes go by the places where they begin. Each step uses a byte at least while some are left, and with none it
// writes nothing, so as many steps as there are bytes come to the end.
fn run_steps<F: Fn(usize) -> usize>(
    rt: &impl Print,
    input: &[u8],
    size: F,
    buffers: &mut Buffers,
) -> io::Result<()>
    requires { F.IsAlwaysCallable size }
{
    let mut progress = table_steps::start();
    let mut at = 0usize;
    for _ in input {
        let left = input.get(at..).unwrap_or(&[]);
        let piece = &left[..left.len().min(size(at))];
        let stepped = table_steps::step(
            Tool::Tables,
            progress,
            piece,
            &mut buffers.line,
            &mut buffers.defaults,
            &mut buffers.plan,
            &mut buffers.table,
            &mut buffers.out,
        );
        show(rt, stepped, &mut buffers.out)?;
        if let Ok(stepped) = stepped {
            at = at.wrapping_add(stepped.used);
            progress = stepped.progress;
        }
    }
    let finished = table_steps::finish(
        Tool::Tables,
        progress,
        &mut buffers.line,
        &mut buffers.defaults,
        &mut buffers.plan,
        &mut buffers.table,
        &mut buffers.out,
    );
    show(rt, finished, &mut buffers.out)
}

// Lends the buffers to a run.
fn run_input<F: Fn(usize) -> usize>(rt: &impl Print, input: &[u8], size: F) -> io::Result<()>
    requires { F.IsAlwaysCallable size }
{
    let line = [0; HELD_AT_MOST];
    let defaults = [0; LONGEST_LINE];
    let plan = [words::UNREAD; plan::PLAN_WORDS];
    let table = [words::UNREAD; MOST_POINTS];
    let out = [0; MOST_PRINTED];
    let mut buffers = Buffers {
        line,
        defaults,
        plan,
        table,
        out,
    };
    print!(rt; "\t")?;
    run_steps(rt, input, size, &mut buffers)
}

// What the run writes, and what it writes where its input comes in uneven pieces of 1 to 5 bytes.
pub fn run(rt: &impl Print, line: &[u8]) -> io::Result<()> {
    let mut bytes = [0; 7000];
    let file = notation::expand(line, &mut bytes);
    exchange(file);
    rt.print("jobs ")?;
    rt.write_all(line)?;
    run_input(rt, file, |_| usize::MAX)?;
    run_input(rt, file, |at| at % 5 + 1)?;
    println!(rt; "")
}
