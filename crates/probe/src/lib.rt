// The probe: how far a reading lies from what was expected, and whether a tolerance allows it.
// The offset is signed and never negated, since -2^63 has no positive twin.
#![tactic(auto)]

ghost use Rattle.std.specs.Prelude.{◌≡◌, ◌^◌, ◌<◌};
ghost use Rattle.probe.specs.Answer.{refusal_number, as_verdict, as_probe_answer};
ghost use Rattle.probe.specs.Probe.{offset, verdict, verdict_word, probe_answer, probe_word};

// 2^63: the least tolerance that is refused.
const HALF: u64 = 9223372036854775808;

// How a reading stands to what was expected, with the numbers by which C knows the verdicts. 0 is no verdict's number.
#[derive(Clone, Copy, Debug, PartialEq, Eq)]
pub enum Verdict {
    Within = 1,
    Ahead = 2,
    Behind = 3,
    Unset = 4,
}

// The offset of a reading, and the verdict on it.
#[derive(Clone, Copy, Debug, PartialEq, Eq)]
pub struct Reading {
    pub offset: i64,
    pub verdict: Verdict,
}

// A tolerance of 2^63 or more, of which the probe says nothing.
#[derive(Clone, Copy, Debug, PartialEq, Eq)]
pub struct ToleranceTooLarge;

impl From<ToleranceTooLarge> for u64 {
    ghost from_gives = { λ refusal number. number ≡ refusal_number refusal };

    fn from(_refusal: ToleranceTooLarge) -> u64 {
        10
    }
}

// reading - expected modulo 2^64, as a signed number.
fn signed_offset(reading: u64, expected: u64) -> i64
    ensures { result ≡ offset 64 reading expected }
{
    word::signed(reading.wrapping_sub(expected))
}

// The offset is held against plus and minus the tolerance: the tolerance is negated, and the offset is not.
fn judge(offset: i64, tolerance: u64) -> Verdict
    requires { tolerance < 2 ^ 63 }
    ensures { as_verdict result ≡ verdict offset tolerance }
{
    let t = tolerance as i64;
    if t < offset {
        return Verdict::Ahead;
    }
    if offset < -t {
        return Verdict::Behind;
    }
    Verdict::Within
}

// A tolerance of 2^63 or more is refused; a reading of 0 is unset, and every other one is judged by its offset.
pub fn probe(reading: u64, expected: u64, tolerance: u64) -> Result<Reading, ToleranceTooLarge>
    ensures answer { as_probe_answer result ≡ probe_answer reading expected tolerance }
    ensures word { verdict_word (as_probe_answer result).verdict ≡ probe_word reading expected tolerance }
{
    if HALF <= tolerance {
        return Err(ToleranceTooLarge);
    }
    if reading == 0 {
        return Ok(Reading {
            offset: 0,
            verdict: Verdict::Unset,
        });
    }
    let offset = signed_offset(reading, expected);
    let verdict = judge(offset, tolerance);
    Ok(Reading { offset, verdict })
}
