// Runs the cases of the rules and both sides of every limit: one line each, a name, a tab and what the library answers.
// The cases stand in the file `stdin`, which says how they are written; what they must answer is in the file `stdout`.
#![tactic(auto)]

mod eras;
mod grids;
mod jobs;
mod plans;

use edges_calls::{backward, chains, formulas, probes};
use edges_text::{input, notation, text};
use std::io;

// A case is a name and a body with a bar between them. The section's first letter says what they are; a plan, a formula on grids and a
// job file are the whole line, and a formula's text is its name. `line` is as written, `expanded` has its repeats written out.
fn case(rt: &impl Print, section: u8, line: &[u8], expanded: &[u8]) -> io::Result<()> {
    let name = text::before(line, b'|');
    let body = text::after(expanded, b'|');
    match section {
        b'c' => chains::print(rt, name, chains::work(body)),
        b'v' => chains::value(rt, name, body, chain_calls::value),
        b's' => chains::sequence(rt, name, body),
        b'l' => chains::list(rt, name, body),
        b't' => eras::turn(rt, name, body),
        b'b' => chains::value(rt, name, body, chain_backward::backward_value),
        b'w' => backward::walk(rt, name, body),
        b'o' => probes::offset(rt, name, body),
        b'f' => formulas::reading(rt, name, text::before(expanded, b'|'), body),
        b'p' => plans::run(rt, line, expanded),
        b'g' => grids::each(rt, line),
        b'j' => jobs::run(rt, line),
        _ => rt.println("no such section"),
    }
}

// Runs a case, unless the line is empty, begins with a byte 0, is a comment or the name of a section. Answers the section of the next line.
fn turn(rt: &impl Print, section: u8, line: &[u8]) -> io::Result<u8> {
    match line {
        [] | [0 | b';', ..] => Ok(section),
        [b'['] => Ok(0),
        [b'[', letter, ..] => Ok(*letter),
        _ => {
            let mut bytes = [0; 7000];
            case(rt, section, line, notation::expand(line, &mut bytes))?;
            Ok(section)
        }
    }
}

fn walk(rt: &impl Print, cases: &[u8]) -> io::Result<()> {
    let mut section = 0;
    for line in cases.split_inclusive(|byte| *byte == b'\n') {
        section = turn(rt, section, text::unmarked(line, b'\n'))?;
    }
    Ok(())
}

fn main(rt: HostRuntime) -> io::Result<()> {
    let mut cases = [0; input::MOST_READ];
    let count = input::read_full(&mut rt.stdin(), &mut cases)?;
    if count < input::MOST_READ {
        walk(&rt, &cases[..count])
    } else {
        rt.println("the input is longer than 65535 bytes")
    }
}
