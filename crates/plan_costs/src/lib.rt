// What a plan costs: the cost of a row and of a plan that is sound, and the call, to which any words may be lent.
// Whether a plan is sound is checked in `plan_sound`; what a point costs beside, and how many are written, is for `plan_fill` and `plan_eras`.
#![tactic(auto)]

ghost use Rattle.std.specs.Prelude.{◌≡◌, true, ◌≤◌, ◌<◌, length};
ghost use Rattle.plan.specs.Measures.{plan_length, row_length};
ghost use Rattle.plan.specs.Row.{kind, word_b, row_cost};
ghost use Rattle.plan.specs.Plan.{sound, cost};
ghost use Rattle.plan.specs.Answers.{as_cost_answer};
ghost use Rattle.plan.specs.Filling.{cost_answer};

use plan::{PLAN_WORDS, Refusal};
use plan_rows::kinds::{NoKind, RowKind};
use plan_rows::{kinds, row};
use plan_sound::sound;

// The cost of a row of a sound plan.
pub fn row_cost(row: &[u64]) -> u64
    requires row_len { length row.now ≡ row_length }
    requires row_bound { kind row.now < 9 }
    requires bound { kind row.now ≡ 7 → 1 ≤ word_b row.now }
    ensures { result ≡ row_cost row.now }
{
    match RowKind::try_from(row[0]) {
        Ok(RowKind::SumChain | RowKind::ProductChain) => row[1],
        Ok(RowKind::LiteralPower) => row[2] - 1,
        Ok(kind) => kinds::facts(kind).cost,
        Err(NoKind) => unreachable!(),
    }
}

pub fn plan_cost(plan: &[u64]) -> u64
    requires plan_length_in_bounds { plan_length ≤ length plan.now }
    requires plan_value { sound plan.now ≡ true }
    ensures value { result ≡ cost plan.now }
    ensures upper_bound { result ≤ 16384 }
{
    let count = plan[0] as usize;
    let mut total = 0;
    for r in 0..count {
        total += row_cost(row(plan, r));
    }
    total
}

pub fn cost(plan: &[u64]) -> Result<u64, Refusal>
    ensures { as_cost_answer result ≡ cost_answer plan.now }
{
    let Some(words) = plan.first_chunk::<PLAN_WORDS>() else {
        return Err(Refusal::TooShort);
    };
    sound(words)?;
    Ok(plan_cost(words))
}
