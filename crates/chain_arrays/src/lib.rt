// Chains as arrays of 17 words, and as lent slices that change in place: 0 past the elements, trimmed, and two of them word by word.
// A chain that is given to a call is checked in `given`; products and powers are in `chain_values`, the calls in `chain_calls` and `chain_coefficients`.
#![tactic(auto)]

ghost use Rattle.std.specs.Prelude.{◌≡◌, ◌+◌, ◌-◌, ◌<◌, ◌≤◌, [], length, take, MatchResult};
ghost use Rattle.word.specs.Signed.{signed};
ghost use Rattle.chain.specs.Chain.{shift_from_top, trimmed, row};
ghost use Rattle.chain.specs.Crossing.{crossed_by};
ghost use Rattle.chain.specs.Answer.{answered, chain, as_chain_answer};
ghost use Rattle.chain_arrays.specs.Operations as Operations;
ghost use Rattle.chain_arrays.specs.Operations.{worked, word_by_word, shifted_by};

use chain::{Chain, Refusal};

// The longest chain.
pub const LONGEST: usize = 16;

// 2^63: the least word that reads as a negative number.
const NEGATIVE: u64 = 9223372036854775808;

// What is worked out of two words. `operation` says which of the four it is.
pub trait Operation {
    ghost operation: { Operations.Operation };

    fn worked(a: u64, b: u64) -> u64
        ensures { result ≡ worked operation a b };
}

#[derive(Clone, Copy)]
pub struct Sum;

impl Operation for Sum {
    ghost operation = { Operations.Sum };

    fn worked(a: u64, b: u64) -> u64 {
        a.wrapping_add(b)
    }
}

#[derive(Clone, Copy)]
pub struct Difference;

impl Operation for Difference {
    ghost operation = { Operations.Difference };

    fn worked(a: u64, b: u64) -> u64 {
        a.wrapping_sub(b)
    }
}

#[derive(Clone, Copy)]
pub struct Product;

impl Operation for Product {
    ghost operation = { Operations.Product };

    fn worked(a: u64, b: u64) -> u64 {
        word::times(a, b)
    }
}

#[derive(Clone, Copy)]
pub struct Power;

impl Operation for Power {
    ghost operation = { Operations.Power };

    fn worked(a: u64, b: u64) -> u64 {
        word::power(a, b)
    }
}

// The constant 0.
pub fn zeros() -> [u64; 17]
    ensures { result ≡ row 17 [] }
{
    [0; 17]
}

// The words up to the given length, 0 past it.
pub fn kept(f: [u64; 17], last: usize) -> [u64; 17]
    requires { last ≤ 16 }
    ensures { result ≡ row 17 (take (last + 1) f) }
{
    let mut r = zeros();
    r[..=last].copy_from_slice(&f[..=last]);
    r
}

// The words of a chain that is given to a call: up to its length, 0 past it. A length over 16 is refused.
pub fn given(f: Chain) -> Result<[u64; 17], Refusal>
    ensures { MatchResult result
        (λ words. (f.length ≤ 16) × (words ≡ row 17 (take (f.length + 1) f.elements)))
        (λ refusal. (16 < f.length) × (refusal ≡ Refusal.TooLong)) }
{
    if LONGEST < f.length {
        return Err(Refusal::TooLong);
    }
    Ok(kept(f.elements, f.length))
}

// The index of the last word that is not the unit, or 0.
pub fn trimmed_length(f: &[u64], unit: u64) -> usize
    ensures { result ≡ length (trimmed unit f.now) - 1 }
{
    f.iter().rposition(|a| *a != unit).unwrap_or(0)
}

// Two arrays, word by word.
pub fn word_by_word<O: Operation>(f: [u64; 17], g: [u64; 17]) -> [u64; 17]
    ensures { result ≡ word_by_word O.operation f g }
{
    let mut r = zeros();
    for i in 0..17 {
        r[i] = O::worked(f[i], g[i]);
    }
    r
}

// One shift in place, from the bottom up: each word meets its neighbour's old value.
pub fn shift_part<O: Operation>(f: &mut [u64])
    ensures { f.new ≡ shifted_by O.operation f.old }
{
    for i in 1..f.len() {
        f[i - 1] = O::worked(f[i - 1], f[i]);
    }
}

// How a first element a crosses in one shift by b, read as a signed number: whether the words add past the largest one tells it.
pub fn crossed(a: u64, b: u64) -> i64
    ensures { result ≡ crossed_by 64 a (signed 64 b) }
{
    let room = u64::MAX - a;
    if b < NEGATIVE {
        if room < b {
            return 1;
        }
        return 0;
    }
    if room < b {
        return 0;
    }
    -1
}

// One shift in place, from the top down: each word meets its neighbour's new value.
pub fn shift_from_top<O: Operation>(f: &mut [u64])
    ensures { f.new ≡ shift_from_top (worked O.operation) f.old }
{
    for i in (1..f.len()).rev() {
        f[i - 1] = O::worked(f[i - 1], f[i]);
    }
}

// The words of an array laid into a lent part that is as long.
pub fn lay(f: [u64; 17], part: &mut [u64])
    requires { length part.old ≡ 17 }
    ensures { part.new ≡ f }
{
    part.copy_from_slice(&f);
}

// The chain of all 17 words, trimmed.
pub fn accepted(elements: [u64; 17]) -> Chain
    ensures { as_chain_answer (Ok result) ≡ answered (chain (trimmed 0 elements)) }
{
    Chain {
        length: trimmed_length(&elements, 0),
        elements,
    }
}
