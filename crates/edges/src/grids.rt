// A formula on 36 grids: a line for each grid, with the plan's rows, cost and checksum, and 12 values.
// The values are filled in one call, and in several uneven ones from a plan that is compiled again; the line says if they differ.
use edges_print::{Judgement, List};
use edges_text::rows::Grid;
use edges_text::words;
use plan::PLAN_WORDS;
use std::io;

// Every start with every step.
const CORNERS: [u64; 6] = [0, 1, 5, 4294967296, 9223372036854775808, u64::MAX];

// How many values are filled.
const VALUES: usize = 12;

// Fills the words of a table from one place up to another, if there are such words. How it is answered shows in them.
fn fill_part(plan: &mut [u64], table: &mut [u64], from: usize, to: usize, budget: u64) {
    if let Some(part) = table.get_mut(from..to) {
        let _ = plan_fill::fill(plan, part, budget);
    }
}

// A table of 12 words: one point, three that the budget pays for, none, five and three.
fn fill_parts(plan: &mut [u64], table: &mut [u64], cost: u64) {
    let for_three = cost.wrapping_mul(4).wrapping_add(3);
    fill_part(plan, table, 0, 1, u64::MAX);
    fill_part(plan, table, 1, VALUES, for_three);
    fill_part(plan, table, 4, VALUES, cost);
    fill_part(plan, table, 4, 9, u64::MAX);
    fill_part(plan, table, 9, VALUES, u64::MAX);
}

fn on_grid(rt: &impl Print, formula: &[u8], grid: Grid) -> io::Result<()> {
    let Grid { start, step } = grid;
    let mut plan = [words::UNREAD; PLAN_WORDS];
    let mut once = [words::UNREAD; VALUES];
    let mut parts = [words::UNREAD; VALUES];
    let answer = compile::compile(formula, start, step, &mut plan);
    let cost = plan_costs::cost(&plan).unwrap_or(0);
    print!(rt; "grid {start},{step} ")?;
    rt.write_all(formula)?;
    print!(rt; "\t{} rows {}", Judgement::of(&answer), plan[0])?;
    print!(rt; " cost {cost} sum {}", words::checksum(&plan))?;
    fill_part(&mut plan, &mut once, 0, VALUES, u64::MAX);
    let _ = compile::compile(formula, start, step, &mut plan);
    fill_parts(&mut plan, &mut parts, cost);
    let differs = if once == parts { "" } else { " differs" };
    println!(rt; " values {}{differs}", List(&once))
}

pub fn each(rt: &impl Print, formula: &[u8]) -> io::Result<()> {
    for start in CORNERS {
        for step in CORNERS {
            on_grid(rt, formula, Grid { start, step })?;
        }
    }
    Ok(())
}
