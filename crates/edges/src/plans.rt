// A plan, its soundness, cost and fillings, and formulas compiled to it. The tokens of a line are told at `step`.
// Formulas that are only read are in `formulas`, those on many grids in `grids`.
use crate::eras;
use edges_print::{Judgement, List, clean, kept};
use edges_text::rows::{CASE_WORDS, CasePlan, Grid};
use edges_text::{rows, text, words};
use plan::{MOST_ROWS, PLAN_WORDS, ROW_WORDS, SPAN_START};
use std::{fmt, io};

// The words of a case's table.
const TABLE_WORDS: usize = 4096;

// A row's kind, and its other words up to the last one before its span that is not 0.
fn shown(row: &[u64; ROW_WORDS]) -> List<'_> {
    let words = &row[..SPAN_START];
    let last = words.iter().rposition(|word| *word != 0).unwrap_or(0);
    List(&words[..=last])
}

// The number of rows, and so many of them.
#[derive(Clone, Copy)]
struct Rows<'a> {
    plan: &'a [u64],
    most: usize,
}

impl fmt::Display for Rows<'_> {
    fn fmt<W: fmt::Write>(&self, f: &mut fmt::Formatter<W>) -> fmt::Result {
        let Some((counted, rows)) = self.plan.split_first() else {
            return Ok(());
        };
        write!(f, "plan {counted}:")?;
        let count = (*counted as usize).min(self.most);
        let (rows, _) = rows.as_chunks::<ROW_WORDS>();
        for row in rows.iter().take(count) {
            write!(f, " {}", shown(row))?;
        }
        Ok(())
    }
}

// first..end of every row; none where more rows are counted than a plan has.
#[derive(Clone, Copy)]
struct Spans<'a>(&'a [u64]);

impl fmt::Display for Spans<'_> {
    fn fmt<W: fmt::Write>(&self, f: &mut fmt::Formatter<W>) -> fmt::Result {
        let Some((counted, rows)) = self.0.split_first() else {
            return Ok(());
        };
        let count = *counted as usize;
        if MOST_ROWS < count {
            return Ok(());
        }
        let (rows, _) = rows.as_chunks::<ROW_WORDS>();
        for row in rows.iter().take(count) {
            write!(f, " {}..{}", row[SPAN_START], row[SPAN_START + 1])?;
        }
        Ok(())
    }
}

// The words of the table that were written and two more, at most 22; the number of rows and the first 10; and the checksums.
pub fn print_lent(
    rt: &impl Print,
    table: &[u64; TABLE_WORDS],
    points: usize,
    plan: &[u64; CASE_WORDS],
) -> io::Result<()> {
    let written = List(&table[..points.min(20) + 2]);
    print!(rt; " table {written} sum {}", words::checksum(table))?;
    print!(rt;
        " {} sum {}",
        Rows { plan, most: 10 },
        words::checksum(plan)
    )
}

// Asks everything of the lent words, and answers the points written.
fn ask(rt: &impl Print, plan: &mut [u64], table: &mut [u64], budget: u64) -> io::Result<usize> {
    let sound = plan_sound::sound(plan);
    let cost = plan_costs::cost(plan);
    let fill = plan_fill::fill(plan, table, budget);
    print!(rt;
        "\tsound {} cost {}",
        Judgement::of(&sound),
        Judgement::of(&cost)
    )?;
    print!(rt; " {} fill {}", cost.unwrap_or(0), Judgement::of(&fill))?;
    let (points, spent) = fill.map_or((0, 0), |filled| (filled.points, filled.spent));
    print!(rt; " {points} {spent}")?;
    Ok(points)
}

// Asks for a filling of a table of so many words on a budget, as the token says, and prints what is lent then.
fn fill<F: FnOnce(&mut [u64], &mut [u64], u64) -> io::Result<usize>>(
    rt: &impl Print,
    token: &[u8],
    plan: &mut CasePlan,
    table: &mut [u64; TABLE_WORDS],
    ask: F,
) -> io::Result<()>
    requires { F.IsAlwaysCallable ask }
{
    let [points, budget] = words::list::<2>(token);
    let room = (points as usize).min(TABLE_WORDS);
    let points = ask(plan.lent(), &mut table[..room], budget)?;
    print_lent(rt, table, points, &plan.words)
}

// Of an accepted formula the cost, the rows, whether the words after the rows are clean, and whether those after the plan stayed.
fn print_plan(rt: &impl Print, plan: &[u64; CASE_WORDS]) -> io::Result<()> {
    let cost = plan_costs::cost(plan);
    let end = 1 + ROW_WORDS * (plan[0] as usize).min(MOST_ROWS);
    print!(rt; "cost {} {}", Judgement::of(&cost), cost.unwrap_or(0))?;
    print!(rt;
        " {}",
        Rows {
            plan,
            most: MOST_ROWS
        }
    )?;
    print!(rt;
        " {} {}",
        clean(&plan[end..PLAN_WORDS]),
        kept(plan, PLAN_WORDS)
    )
}

// Of a refused formula it is told whether all words stayed.
fn compile_on(rt: &impl Print, formula: &[u8], grid: Grid, plan: &mut CasePlan) -> io::Result<()> {
    words::paint(&mut plan.words);
    let answer = compile::compile(formula, grid.start, grid.step, plan.lent());
    print!(rt; "\tcompile {} ", Judgement::of(&answer))?;
    match answer {
        Ok(()) => print_plan(rt, &plan.words),
        Err(_) => rt.print(kept(&plan.words, 0)),
    }
}

// Does what a token says.
// 1,3,0,0,1,6,6 is the next row: its kind, a, b and elements. The words after them stay 0 but for the span, which is 0..1, and word 0 counts
// the row. ~1 in it is the number of the row before it. @40,7,8 puts 7 and 8 in the words from 40 on. p begins a plan with the rows 0,0,0,3
// and 1,1,0,5,2. #2816 lends 2,816 words; 2,817 are lent where nothing is said. t10,15 asks for soundness and cost and fills a table of 10
// words on a budget of 15, which is 999 where it is left out; e10,15 fills with era count. s prints the spans of the rows. =x^3 compiles a
// formula, and g5,2:x^3 does on a grid with start 5 and step 2.
fn step(
    rt: &impl Print,
    token: &[u8],
    plan: &mut CasePlan,
    table: &mut [u64; TABLE_WORDS],
) -> io::Result<()> {
    match token {
        [b't', ..] => fill(
            rt,
            token,
            plan,
            table,
            |plan, table, budget| ask(rt, plan, table, budget),
        ),
        [b'e', ..] => fill(
            rt,
            token,
            plan,
            table,
            |plan, table, budget| eras::count(rt, plan, table, budget),
        ),
        [b's', ..] => print!(rt; "\tspans{}", Spans(&plan.words)),
        [b'=', formula @ ..] => compile_on(rt, formula, rows::PLAIN, plan),
        [b'g', gridded @ ..] => {
            let grid = rows::grid_of(token);
            compile_on(rt, text::after(gridded, b':'), grid, plan)
        }
        [b'p', ..] => {
            plan.write(b"0,0,0,3");
            plan.write(b"1,1,0,5,2");
            Ok(())
        }
        _ => {
            plan.write(token);
            Ok(())
        }
    }
}

// The line is the case's name too; its tokens have their repeats written out.
pub fn run(rt: &impl Print, line: &[u8], tokens: &[u8]) -> io::Result<()> {
    let mut plan = CasePlan::new();
    let mut table = [words::UNREAD; TABLE_WORDS];
    rt.print("plan ")?;
    rt.write_all(line)?;
    for token in tokens.split_inclusive(|byte| *byte == b' ') {
        step(rt, text::unmarked(token, b' '), &mut plan, &mut table)?;
    }
    println!(rt; "")
}
