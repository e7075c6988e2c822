// The door for C: each function of `otterchime` under its own name, exported with the same contract. include/otterchime.h documents the calls.
// What a call answers is decided there. Compiling, filling, explaining and the probe are here, the chain calls in `chains` and `backward`.
// Kept: each function is its twin of `otterchime` under the name that include/otterchime.h gives it, since C calls these names and a library exports none.
#![tactic(auto)]

mod backward;
mod chains;

ghost use Rattle.std.specs.Prelude.{◌≡◌};
ghost use Rattle.plan.specs.Filling.{fill, cost_answer, sound_answer};
ghost use Rattle.plan.specs.Eras.{fill_eras};
ghost use Rattle.probe.specs.Probe.{probe_answer};
ghost use Rattle.otterchime.specs.Answers.{CompiledInto, ExplainedInto, fill_words, fill_eras_words, cost_words, sound_words, probe_words};

// Compiles a formula's text on a grid into a lent plan of 2,817 words. A refusal alters no word of the plan; words past its own stay.
#[unsafe(no_mangle)]
pub extern "C" fn otterchime_compile(
    text: &[u8],
    start: u64,
    step: u64,
    plan: &mut [u64],
    answer: &mut [u64; 2],
)
    ensures { CompiledInto text.now start step plan.old plan.new answer.new }
{
    otterchime::otterchime_compile(text, start, step, plan, answer)
}

// Writes as many points as the table has room and the budget pays for, and leaves the plan shifted by them. A refusal alters neither.
#[unsafe(no_mangle)]
pub extern "C" fn otterchime_fill(
    plan: &mut [u64],
    table: &mut [u64],
    budget: u64,
    answer: &mut [u64; 4],
)
    ensures answer_after { answer.new ≡ fill_words (fill 64 plan.old table.old budget).answer }
    ensures table_after { table.new ≡ (fill 64 plan.old table.old budget).table }
    ensures plan_after { plan.new ≡ (fill 64 plan.old table.old budget).plan }
{
    otterchime::otterchime_fill(plan, table, budget, answer)
}

// The same with the crossings of the root over the points written, added up. Refused 16 where the root is neither a constant nor a sum chain.
#[unsafe(no_mangle)]
pub extern "C" fn otterchime_fill_eras(
    plan: &mut [u64],
    table: &mut [u64],
    budget: u64,
    answer: &mut [u64; 5],
)
    ensures answer_after { answer.new ≡ fill_eras_words (fill_eras 64 plan.old table.old budget).answer }
    ensures table_after { table.new ≡ (fill_eras 64 plan.old table.old budget).table }
    ensures plan_after { plan.new ≡ (fill_eras 64 plan.old table.old budget).plan }
{
    otterchime::otterchime_fill_eras(plan, table, budget, answer)
}

// What a plan costs.
#[unsafe(no_mangle)]
pub extern "C" fn otterchime_cost(plan: &[u64], answer: &mut [u64; 3])
    ensures { answer.new ≡ cost_words (cost_answer plan.now) }
{
    otterchime::otterchime_cost(plan, answer)
}

// Whether a plan is sound: the refusal that it would meet, or 0.
#[unsafe(no_mangle)]
pub extern "C" fn otterchime_sound(plan: &[u64], answer: &mut [u64; 2])
    ensures { answer.new ≡ sound_words (sound_answer plan.now) }
{
    otterchime::otterchime_sound(plan, answer)
}

// Why a row of a plan is still there, and the bytes of the text that it came from. Any word may be a row's number.
#[unsafe(no_mangle)]
pub extern "C" fn otterchime_reason(plan: &[u64], row: u64, answer: &mut [u64; 5])
    ensures { ExplainedInto plan.now row answer.new }
{
    otterchime::otterchime_reason(plan, row, answer)
}

// How far a reading lies from what was expected, and the verdict on it.
#[unsafe(no_mangle)]
pub extern "C" fn otterchime_probe(
    reading: u64,
    expected: u64,
    tolerance: u64,
    answer: &mut [u64; 4],
)
    ensures { answer.new ≡ probe_words (probe_answer reading expected tolerance) }
{
    otterchime::otterchime_probe(reading, expected, tolerance, answer)
}
