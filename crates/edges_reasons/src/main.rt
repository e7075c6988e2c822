// Runs the cases of the call that says why a row is still there: one line each, the case, what its formulas compile to, and the answers.
// The cases stand in the file `stdin`, which says how they are written; what they must answer is in the file `stdout`.
#![tactic(auto)]

use edges_print::Judgement;
use edges_text::rows::{CasePlan, Grid};
use edges_text::{input, notation, rows, text};
use plan::MOST_ROWS;
use reason::Explained;
use std::io;

// number place reason first end
fn ask(rt: &impl Print, plan: &[u64], row: usize) -> io::Result<()> {
    let answer = reason_call::reason(plan, row);
    let judgement = Judgement::of(&answer);
    match answer {
        Ok(Explained { reason, first, end }) => {
            print!(rt;
                "\t{judgement} {} {first} {end}",
                reason.map_or(0, u64::from)
            )
        }
        Err(_) => print!(rt; "\t{judgement} 0 0 0"),
    }
}

// Compiles into the words that are lent: number place rows
fn compile_on(rt: &impl Print, formula: &[u8], grid: Grid, plan: &mut CasePlan) -> io::Result<()> {
    let answer = compile::compile(formula, grid.start, grid.step, plan.lent());
    print!(rt; "\tcompile {} {}", Judgement::of(&answer), plan.words[0])
}

// Does what a token says. r5 asks for row 5, =x^3 compiles a formula and g5,2:x^3 does on a grid; the others write the plan.
fn step(rt: &impl Print, token: &[u8], plan: &mut CasePlan) -> io::Result<()> {
    match token {
        [b'r', row @ ..] => ask(rt, plan.lent(), text::number(row, 0) as usize),
        [b'=', formula @ ..] => compile_on(rt, formula, rows::PLAIN, plan),
        [b'g', gridded @ ..] => {
            let grid = rows::grid_of(token);
            compile_on(rt, text::after(gridded, b':'), grid, plan)
        }
        _ => {
            plan.write(token);
            Ok(())
        }
    }
}

// The line is the case's name too; its tokens have their repeats written out. Last, every row is asked for from row 0 to the one past the last.
fn run(rt: &impl Print, line: &[u8], tokens: &[u8]) -> io::Result<()> {
    let mut plan = CasePlan::new();
    rt.write_all(line)?;
    for token in tokens.split_inclusive(|byte| *byte == b' ') {
        step(rt, text::unmarked(token, b' '), &mut plan)?;
    }
    let last = (plan.words[0] as usize).min(MOST_ROWS);
    for row in 0..=last {
        ask(rt, plan.lent(), row)?;
    }
    println!(rt; "")
}

// Runs a case, unless the line is empty, begins with a byte 0 or is a comment.
fn turn(rt: &impl Print, line: &[u8]) -> io::Result<()> {
    match line {
        [] | [0 | b';', ..] => Ok(()),
        _ => {
            let mut bytes = [0; 2000];
            run(rt, line, notation::expand(line, &mut bytes))
        }
    }
}

// Kept: `edges` has a walk of its own, which hands the section on from line to line.
fn walk(rt: &impl Print, cases: &[u8]) -> io::Result<()> {
    for line in cases.split_inclusive(|byte| *byte == b'\n') {
        turn(rt, text::unmarked(line, b'\n'))?;
    }
    Ok(())
}

fn main(rt: HostRuntime) -> io::Result<()> {
    let mut cases = [0; input::MOST_READ];
    let count = input::read_full(&mut rt.stdin(), &mut cases)?;
    if count < input::MOST_READ {
        walk(&rt, &cases[..count])
    } else {
        rt.println("the input is longer than 65535 bytes")
    }
}
