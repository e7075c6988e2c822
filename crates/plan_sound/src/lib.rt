// Whether a plan is sound, row by row, for callers. Any words may be lent.
// What is asked of one row is in `plan_row_checks`; what a sound plan costs and fills is in `plan_costs` and the crates above it.
#![tactic(auto)]

ghost use Rattle.std.specs.Prelude.{◌≡◌, true, [], ◌≤◌, ◌<◌};
ghost use Rattle.plan.specs.Measures.{most_rows};
ghost use Rattle.plan.specs.Row.{keeps_table, sound_base, sound_row};
ghost use Rattle.plan.specs.Plan.{row, first_rows, sound_from, sound, refusal};
ghost use Rattle.plan.specs.Answers.{as_sound_answer};
ghost use Rattle.plan.specs.Filling.{sound_answer};

use plan::{MOST_ROWS, PLAN_WORDS, PlanWords, Refusal};
use plan_row_checks::{all_zero, keeps_table, odd_constant, span_is_sound};
use plan_rows::kinds::RAISE;
use plan_rows::row;

// Row r, if it is a raise, stands on an odd constant.
fn base_is_sound(plan: &PlanWords, r: usize) -> bool
    requires r_lt_most_rows { r < most_rows }
    requires r_value { keeps_table r (row plan.now r) ≡ true }
    ensures { result ≡ sound_base (first_rows r plan.now) (row plan.now r) }
{
    let words = row(plan, r);
    words[0] != RAISE || odd_constant(row(plan, words[1] as usize))
}

// Row r, given the rows before it: it keeps the table, the base of a raise is an odd constant, and it came from some text.
fn row_is_sound(plan: &PlanWords, r: usize) -> bool
    requires { r < most_rows }
    ensures { result ≡ sound_row (first_rows r plan.now) (row plan.now r) }
{
    let words = row(plan, r);
    if !keeps_table(words, r as u64) {
        return false;
    }
    base_is_sound(plan, r) && span_is_sound(words)
}

fn rows_are_sound(plan: &PlanWords, count: usize) -> bool
    requires { count ≤ most_rows }
    ensures { result ≡ sound_from [] (first_rows count plan.now) }
{
    for r in 0..count {
        if !row_is_sound(plan, r) {
            return false;
        }
    }
    true
}

fn is_sound(plan: &PlanWords) -> bool
    ensures { result ≡ sound plan.now }
{
    let count = plan[0] as usize;
    if count == 0 || MOST_ROWS < count {
        return false;
    }
    let end = plan_rows::start(count);
    rows_are_sound(plan, count) && all_zero(&plan[end..PLAN_WORDS])
}

// A plan that is too short is refused before it is judged.
pub fn sound(plan: &[u64]) -> Result<(), Refusal>
    ensures { as_sound_answer result ≡ sound_answer plan.now }
{
    let Some(words) = plan.first_chunk::<PLAN_WORDS>() else {
        return Err(Refusal::TooShort);
    };
    if is_sound(words) {
        Ok(())
    } else {
        Err(Refusal::Unsound)
    }
}

// The refusal's number, or 0.
// Kept: (a) a public call whose contract, `refusal` of plan/specs/Plan.antt, answers the number.
pub fn refusal(plan: &[u64]) -> u64
    ensures { result ≡ refusal plan.now }
{
    match sound(plan) {
        Ok(()) => 0,
        Err(refused) => u64::from(refused),
    }
}
