// Crossings of an era's end: how a chain crosses in a shift, and fillings of a plan with era count.
// Chains in postfix are read in `chains`; a plan's rows and other tokens in `plans`, which calls on this for the token e.
use edges_calls::chains;
use edges_print::Judgement;
use std::io;

// number place crossing
pub fn turn(rt: &impl Print, name: &[u8], body: &[u8]) -> io::Result<()> {
    let answer = chain_calls::shift(chains::worked(body));
    let judgement = Judgement::of(&answer);
    let crossing = answer.map_or(0, |shifted| shifted.crossing);
    rt.write_all(name)?;
    println!(rt; "\t{judgement} {crossing}")
}

// Fills the lent words, and answers the points written: number place points spent sum.
pub fn count(
    rt: &impl Print,
    plan: &mut [u64],
    table: &mut [u64],
    budget: u64,
) -> io::Result<usize> {
    let answer = plan_eras::fill_eras(plan, table, budget);
    let judgement = Judgement::of(&answer);
    let (points, spent, sum) = answer.map_or(
        (0, 0, 0),
        |filled| (filled.points, filled.spent, filled.sum),
    );
    print!(rt; "\teras {judgement} {points} {spent} {sum}")?;
    Ok(points)
}
