// Why a row of a plan is still there, for callers. Any words may be lent, and any row asked for.
// What the reasons are, and that a row has exactly one, is in `reason`; which one it is by what is seen of operands, is found in `reason_numbers`; whether a plan is sound is checked
// in `plan_sound`.
#![tactic(auto)]

mod operands;

ghost use Rattle.std.specs.Prelude.{◌≡◌, true, ◌≤◌, ◌<◌, length};
ghost use Rattle.plan.specs.Measures.{plan_length};
ghost use Rattle.plan.specs.Plan.{row_count, row, sound};
ghost use Rattle.reason.specs.Answer.{number_or_0, as_reason_answer};
ghost use Rattle.reason.specs.Explaining.{Explaining};
ghost use Rattle.reason.proofs.TreeLaws.{seen_in};
ghost use Rattle.reason.proofs.SoundRows.{row_reason};

use operands::seen;
use plan::{Refusal, SPAN_START};
use plan_rows::kinds::{NoKind, RowKind};
use plan_rows::row;
use plan_sound::sound;
use reason::{Explained, Reason, Seen};
use reason_numbers::{minus_reason, power_reason, product_reason, raise_reason, sum_reason};

// What the rules see of row r of a sound plan.
// Kept: `plan` is a slice here and in `row_reason`: `reason` promises `Explaining` of all words lent, so an array of a plan's words would need laws that
// rows and trees are those of the first words.
fn operand(plan: &[u64], r: usize) -> Seen
    requires plan_length_in_bounds { plan_length ≤ length plan.now }
    requires plan_value { sound plan.now ≡ true }
    requires r_bound { r < row_count plan.now }
    ensures value { result ≡ seen_in (row plan.now r) }
    ensures length_bound { result.length ≤ 16 }
{
    seen(row(plan, r))
}

// The reason of row r of a sound plan, none for a constant or a chain.
pub fn row_reason(plan: &[u64], r: usize) -> Option<Reason>
    requires plan_length_in_bounds { plan_length ≤ length plan.now }
    requires plan_value { sound plan.now ≡ true }
    requires r_bound { r < row_count plan.now }
    ensures { number_or_0 result ≡ row_reason plan.now r }
{
    let words = row(plan, r);
    let a = words[1] as usize;
    let b = words[2] as usize;
    Some(match RowKind::try_from(words[0]) {
        Ok(RowKind::Sum | RowKind::Difference) => sum_reason(operand(plan, a), operand(plan, b)),
        Ok(RowKind::Product) => product_reason(operand(plan, a), operand(plan, b)),
        Ok(RowKind::Minus) => minus_reason(operand(plan, a)),
        Ok(RowKind::LiteralPower) => power_reason(operand(plan, a), b),
        Ok(RowKind::Raise) => raise_reason(operand(plan, b)),
        Ok(RowKind::Constant | RowKind::SumChain | RowKind::ProductChain) => return None,
        Err(NoKind) => unreachable!(),
    })
}

// The reason and the span of row r; nothing for a row that the plan doesn't count.
pub fn reason(plan: &[u64], r: usize) -> Result<Explained, Refusal>
    ensures { Explaining 64 plan.now r (as_reason_answer result) }
{
    sound(plan)?;
    if plan[0] as usize <= r {
        return Ok(Explained {
            reason: None,
            first: 0,
            end: 0,
        });
    }
    let words = row(plan, r);
    Ok(Explained {
        reason: row_reason(plan, r),
        first: words[SPAN_START],
        end: words[SPAN_START + 1],
    })
}
