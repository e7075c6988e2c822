// Filling with era count: the points of a fill, and how often the root crossed the end of an era over them.
// What one shift says of a chain is in `chain_arrays`; filling itself is in `plan_fill`, the points in `plan_points`.
#![tactic(auto)]

ghost use Rattle.std.specs.Prelude.{◌≡◌, true, cond};
ghost use Rattle.plan.specs.Plan.{sound};
ghost use Rattle.plan.specs.Answers.{number_of, as_fill_eras_answer};
ghost use Rattle.plan.specs.Eras.{root_row, root_chain, constant_or_sum, eras_refusal, fill_eras};
ghost use Rattle.plan.proofs.EraLaws.{abs_crossing};
ghost use Rattle.chain.specs.Crossing.{crossing};

use chain_arrays::crossed;
use plan::{CountedPoints, ELEMENTS_START, PLAN_WORDS, PlanWords, Refusal};
use plan_points::Count;
use plan_rows::kinds::{CONSTANT, SUM_CHAIN};
use plan_rows::word;
use plan_sound::sound;

// How the root of a sound plan crosses in the shift that follows; only a sum chain does.
fn root_crossing(plan: &PlanWords) -> i64
    requires { sound plan.now ≡ true }
    ensures { result ≡ crossing 64 (root_chain plan.now) }
{
    let root = plan[0] as usize - 1;
    if word(plan, root, 0) != SUM_CHAIN {
        return 0;
    }
    crossed(
        word(plan, root, ELEMENTS_START),
        word(plan, root, ELEMENTS_START + 1),
    )
}

// What a fill with era count counts: the root's crossings.
struct Crossings;

impl Count for Crossings {
    ghost counted = { λ plan. crossing 64 (root_chain plan) };

    ghost at_most_one = { λ plan. abs_crossing 64 (root_chain plan) };

    fn count(plan: &PlanWords) -> i64 {
        root_crossing(plan)
    }
}

// The root of a sound plan is refused if it is neither a constant nor a sum chain.
fn root_refusal(plan: &PlanWords) -> Result<(), Refusal>
    requires { sound plan.now ≡ true }
    ensures { number_of result ≡ cond (constant_or_sum (root_row plan.now)) 0 16 }
{
    let kind = word(plan, plan[0] as usize - 1, 0);
    if kind == CONSTANT || kind == SUM_CHAIN {
        Ok(())
    } else {
        Err(Refusal::RootNotSum)
    }
}

// 1, then 9, then 16.
#[tactic(auto, unfolding(plan::specs::Eras::eras_refusal))]
fn eras_refusal(plan: &PlanWords) -> Result<(), Refusal>
    ensures { number_of result ≡ eras_refusal plan.now }
{
    sound(plan)?;
    root_refusal(plan)
}

// As many points as the table has room and the budget pays for, and the crossings of the root over them. A refused call changes nothing.
pub fn fill_eras(plan: &mut [u64], table: &mut [u64], budget: u64) -> Result<CountedPoints, Refusal>
    ensures value { as_fill_eras_answer result ≡ (fill_eras 64 plan.old table.old budget).answer }
    ensures table_after { table.new ≡ (fill_eras 64 plan.old table.old budget).table }
    ensures plan_after { plan.new ≡ (fill_eras 64 plan.old table.old budget).plan }
{
    let Some(words) = plan.first_chunk_mut::<PLAN_WORDS>() else {
        return Err(Refusal::TooShort);
    };
    eras_refusal(words)?;
    Ok(plan_fill::fill_sound::<Crossings>(words, table, budget))
}
