// Filling a table by a plan, for callers. Any words may be lent. What filling with and without era count have in common stands here once.
// Whether a plan is sound is checked in `plan_sound`, cost is in `plan_costs`, the points in `plan_points`, what is counted with era count in `plan_eras`; formulas live above.
#![tactic(auto)]

ghost use Rattle.std.specs.Prelude.{◌≡◌, true, ◌++◌, ◌*◌, pos, length, drop};
ghost use Rattle.plan.specs.Plan.{sound};
ghost use Rattle.plan.specs.Answers.{as_fill_answer};
ghost use Rattle.plan.specs.Filling.{point_cost, points_for, plan_after, point_values, fill};
ghost use Rattle.plan.proofs.Counting.{counted_over};
ghost use Rattle.std.proofs.Common.{rules};

use plan::{CountedPoints, FilledPoints, PLAN_WORDS, PlanWords, Refusal};
use plan_points::Count;
use plan_sound::sound;

// A fill without era count counts nothing.
struct Nothing;

impl Count for Nothing {
    ghost counted = { λ _. pos 0 };

    ghost at_most_one = { Prim.search rules };

    fn count(_plan: &PlanWords) -> i64 {
        0
    }
}

// As many points of a sound plan as the table has room and the budget pays for, and what is counted at them.
pub fn fill_sound<C: Count>(plan: &mut PlanWords, table: &mut [u64], budget: u64) -> CountedPoints
    requires { sound plan.old ≡ true }
    ensures points { result.points ≡ points_for plan.old (length table.old) budget }
    ensures spent { result.spent ≡ result.points * point_cost plan.old }
    ensures sum { result.sum ≡ counted_over C.counted 64 result.points plan.old }
    ensures table_after { table.new ≡ point_values 64 result.points plan.old ++ drop result.points table.old }
    ensures plan_after { plan.new ≡ plan_after 64 result.points plan.old }
{
    let point_cost = plan_costs::plan_cost(plan) + 1;
    let points = table.len().min((budget / point_cost) as usize);
    let sum = plan_points::write_points::<C>(plan, &mut table[0..points]);
    let spent = points as u64 * point_cost;
    CountedPoints { points, spent, sum }
}

// As many points as the table has room and the budget pays for. A refused call changes nothing.
pub fn fill(plan: &mut [u64], table: &mut [u64], budget: u64) -> Result<FilledPoints, Refusal>
    ensures value { as_fill_answer result ≡ (fill 64 plan.old table.old budget).answer }
    ensures table_after { table.new ≡ (fill 64 plan.old table.old budget).table }
    ensures plan_after { plan.new ≡ (fill 64 plan.old table.old budget).plan }
{
    let Some(words) = plan.first_chunk_mut::<PLAN_WORDS>() else {
        return Err(Refusal::TooShort);
    };
    sound(words)?;
    let filled = fill_sound::<Nothing>(words, table, budget);
    Ok(FilledPoints {
        points: filled.points,
        spent: filled.spent,
    })
}
