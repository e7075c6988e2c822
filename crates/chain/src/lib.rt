// A chain, and what the calls on chains answer. What a chain is and means is in specs/, its laws in proofs/.
// The work on arrays of words is in `chain_arrays` and `chain_values`, the calls in `chain_calls` and `chain_coefficients`.
#![tactic(auto)]

ghost use Rattle.std.specs.Prelude.{◌≡◌};
ghost use Rattle.chain.specs.Answer.{refusal_number};

// A chain of a length: its elements from the first word up to that of its length. Words past them are not read, and 0 in a chain that is answered.
// Kept: a length beside an array, since 01 has chains as arrays of 17 words by value, and there is no heap for a list.
#[derive(Clone, Copy, Debug, PartialEq, Eq)]
pub struct Chain {
    pub length: usize,
    pub elements: [u64; 17],
}

// A chain after a shift, and how its first element crossed: -1, 0 or 1.
#[derive(Clone, Copy, Debug, PartialEq, Eq)]
pub struct Shifted {
    pub chain: Chain,
    pub crossing: i64,
}

// Why a call on chains is refused: over 17 coefficients, a chain given with length over 16, trimmed lengths of a product that add over 16.
#[derive(Clone, Copy, Debug, PartialEq, Eq)]
pub enum Refusal {
    TooManyCoefficients,
    TooLong,
    ProductTooLong,
}

impl From<Refusal> for u64 {
    ghost from_gives = { λ refusal number. number ≡ refusal_number refusal };

    fn from(refusal: Refusal) -> u64 {
        match refusal {
            Refusal::TooManyCoefficients => 13,
            Refusal::TooLong => 14,
            Refusal::ProductTooLong => 15,
        }
    }
}
