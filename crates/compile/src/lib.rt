// Compiling: a formula's text on a grid to the plan of its folded tree, or the refusal.
// The folding of the nodes one after the other is in `machine`, that of one operator in the crates `fold_sums`, `fold_minus`, `fold_products`, `fold_powers` and `fold_raises`.
#![tactic(auto)]

mod machine;

ghost use Rattle.fold.specs.Answer.{as_compile_answer};
ghost use Rattle.fold.specs.Compiling.{Compiling};

use formula::Refusal;
use machine::{Grid, TREE_START};
use plan::PLAN_WORDS;

// Compiles a formula's text on a grid into a lent plan of 2,817 words. A refusal alters no word; words past the plan's own stay.
pub fn compile(text: &[u8], start: u64, step: u64, plan: &mut [u64]) -> Result<(), Refusal>
    ensures { Compiling 64 text.now start step plan.old (as_compile_answer result) plan.new }
{
    let Some(plan) = plan.first_chunk_mut::<PLAN_WORDS>() else {
        return Err(Refusal::BufferTooShort);
    };
    formula_read::read_spanned(text, &mut plan[TREE_START..])?;
    machine::fold_tree(plan, Grid { start, step });
    Ok(())
}
