// The door: the calls on formulas, plans, chains and readings once more, in one style, as `otterchime_c` exports them for C. Numbers and slices come in, and the
// answer goes into lent words: word 0 the refusal's number, word 1 its place, then the call's own words (specs/Answers.antt).
// Compiling, filling, explaining and the probe are here, the chain calls in `chains` and `backward`.
// Kept: an answer is words with number and place first, 0 and 0 if accepted, since include/otterchime.h lays it out so for C.
#![tactic(auto)]

pub mod backward;
pub mod chains;

ghost use Rattle.std.specs.Prelude.{◌≡◌, ◌-◌, ◌≤◌, ◌∷◌, replicate};
ghost use Rattle.plan.specs.Filling.{fill, cost_answer, sound_answer};
ghost use Rattle.plan.specs.Eras.{fill_eras};
ghost use Rattle.probe.specs.Probe.{probe_answer};
ghost use Rattle.otterchime.specs.Answers.{CompiledInto, ExplainedInto, fill_words, fill_eras_words, cost_words, sound_words, probe_words};

// The number of a call that is not refused, and the place of such a call and of a refusal that has none.
const ACCEPTED: u64 = 0;

const NOWHERE: u64 = 0;

// The number of a row that has no reason.
const NO_REASON: u64 = 0;

// The words of a refused call: number and place, and 0 in the call's own words.
fn refused<const N: usize>(number: u64, place: u64) -> [u64; N]
    requires { 2 ≤ N }
    ensures { result ≡ number ∷ place ∷ replicate (N - 2) 0 }
{
    let mut words = [0; N];
    words[0] = number;
    words[1] = place;
    words
}

// Compiles a formula's text on a grid into a lent plan of 2,817 words. A refusal alters no word of the plan; words past its own stay.
pub fn otterchime_compile(
    text: &[u8],
    start: u64,
    step: u64,
    plan: &mut [u64],
    answer: &mut [u64; 2],
)
    ensures { CompiledInto text.now start step plan.old plan.new answer.new }
{
    *answer = match compile::compile(text, start, step, plan) {
        Ok(()) => [ACCEPTED, NOWHERE],
        Err(refusal) => refused(refusal.number(), refusal.place()),
    };
}

// Writes as many points as the table has room and the budget pays for, and leaves the plan shifted by them. A refusal alters neither.
pub fn otterchime_fill(plan: &mut [u64], table: &mut [u64], budget: u64, answer: &mut [u64; 4])
    ensures answer_after { answer.new ≡ fill_words (fill 64 plan.old table.old budget).answer }
    ensures table_after { table.new ≡ (fill 64 plan.old table.old budget).table }
    ensures plan_after { plan.new ≡ (fill 64 plan.old table.old budget).plan }
{
    *answer = match plan_fill::fill(plan, table, budget) {
        Ok(filled) => [ACCEPTED, NOWHERE, filled.points as u64, filled.spent],
        Err(refusal) => refused(u64::from(refusal), NOWHERE),
    };
}

// The same with the crossings of the root over the points written, added up. Refused 16 where the root is neither a constant nor a sum chain.
pub fn otterchime_fill_eras(plan: &mut [u64], table: &mut [u64], budget: u64, answer: &mut [u64; 5])
    ensures answer_after { answer.new ≡ fill_eras_words (fill_eras 64 plan.old table.old budget).answer }
    ensures table_after { table.new ≡ (fill_eras 64 plan.old table.old budget).table }
    ensures plan_after { plan.new ≡ (fill_eras 64 plan.old table.old budget).plan }
{
    *answer = match plan_eras::fill_eras(plan, table, budget) {
        Ok(counted) => [
            ACCEPTED,
            NOWHERE,
            counted.points as u64,
            counted.spent,
            counted.sum.cast_unsigned(),
        ],
        Err(refusal) => refused(u64::from(refusal), NOWHERE),
    };
}

// What a plan costs.
pub fn otterchime_cost(plan: &[u64], answer: &mut [u64; 3])
    ensures { answer.new ≡ cost_words (cost_answer plan.now) }
{
    *answer = match plan_costs::cost(plan) {
        Ok(cost) => [ACCEPTED, NOWHERE, cost],
        Err(refusal) => refused(u64::from(refusal), NOWHERE),
    };
}

// Whether a plan is sound: the refusal that it would meet, or 0.
pub fn otterchime_sound(plan: &[u64], answer: &mut [u64; 2])
    ensures { answer.new ≡ sound_words (sound_answer plan.now) }
{
    *answer = match plan_sound::sound(plan) {
        Ok(()) => [ACCEPTED, NOWHERE],
        Err(refusal) => refused(u64::from(refusal), NOWHERE),
    };
}

// Why a row of a plan is still there, and the bytes of the text that it came from. Any word may be a row's number.
pub fn otterchime_reason(plan: &[u64], row: u64, answer: &mut [u64; 5])
    ensures { ExplainedInto plan.now row answer.new }
{
    *answer = match reason_call::reason(plan, row as usize) {
        Ok(explained) => {
            let reason = explained.reason.map_or(NO_REASON, u64::from);
            [ACCEPTED, NOWHERE, reason, explained.first, explained.end]
        }
        Err(refusal) => refused(u64::from(refusal), NOWHERE),
    };
}

// How far a reading lies from what was expected, and the verdict on it.
pub fn otterchime_probe(reading: u64, expected: u64, tolerance: u64, answer: &mut [u64; 4])
    ensures { answer.new ≡ probe_words (probe_answer reading expected tolerance) }
{
    *answer = match probe::probe(reading, expected, tolerance) {
        Ok(r) => [
            ACCEPTED,
            NOWHERE,
            r.offset.cast_unsigned(),
            r.verdict as u64,
        ],
        Err(refusal) => refused(u64::from(refusal), NOWHERE),
    };
}
