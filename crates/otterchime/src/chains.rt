// The chain calls of the door. A chain comes as 17 words f and its length k; words past the length are not read.
// What a call answers is decided in `chain_calls` and `chain_coefficients`. The calls for tables that run backwards are in `backward`, those on formulas, plans
// and readings in the crate's root.
// Kept: f, k, g and l travel apart, and a function stands for each call, since include/otterchime.h names these functions and parameters for C.
ghost use Rattle.std.specs.Prelude.{◌≡◌, length};
ghost use Rattle.chain.specs.Answer.{as_chain_answer, as_shift_answer, as_value_answer};
ghost use Rattle.chain.specs.Answer.{answered, trim_outcome, sum_outcome, difference_outcome, product_outcome, shift_answer, coefficients_outcome, value_answer};
ghost use Rattle.otterchime.specs.Answers.{chain_answer_length, chain_words, shift_words, value_words};

use crate::{ACCEPTED, NOWHERE, refused};
use chain::{Chain, Refusal, Shifted};

// The words of an answer that is a chain, and where its elements begin.
pub const CHAIN_ANSWER: usize = 20;

const ANSWER_ELEMENTS: usize = 3;

// The words of a shift's answer: the chain, and behind it the crossing.
pub const SHIFT_ANSWER: usize = 21;

// The chain that comes as 17 words and its length.
pub(crate) fn given(f: &[u64; 17], k: u64) -> Chain
    ensures { result ≡ record { length = k; elements = f.now } }
{
    Chain {
        length: k as usize,
        elements: *f,
    }
}

// An accepted call's chain: number, place, length, and the elements.
fn lay(chain: Chain, words: &mut [u64])
    requires { length words.old ≡ chain_answer_length }
    ensures { words.new ≡ chain_words (as_chain_answer (Ok chain)) }
{
    words[..ANSWER_ELEMENTS].copy_from_slice(&[ACCEPTED, NOWHERE, chain.length as u64]);
    words[ANSWER_ELEMENTS..].copy_from_slice(&chain.elements);
}

// An answer that is a chain.
pub(crate) fn put(r: Result<Chain, Refusal>, answer: &mut [u64; CHAIN_ANSWER])
    ensures { answer.new ≡ chain_words (as_chain_answer r) }
{
    match r {
        Ok(chain) => lay(chain, answer),
        Err(refusal) => *answer = refused(u64::from(refusal), NOWHERE),
    }
}

// The same of a shift, and behind it the word that reads as the crossing.
fn put_shift(r: Result<Shifted, Refusal>, answer: &mut [u64; SHIFT_ANSWER])
    ensures { answer.new ≡ shift_words (as_shift_answer r) }
{
    match r {
        Ok(shifted) => {
            answer[CHAIN_ANSWER] = shifted.crossing.cast_unsigned();
            lay(shifted.chain, &mut answer[..CHAIN_ANSWER]);
        }
        Err(refusal) => *answer = refused(u64::from(refusal), NOWHERE),
    }
}

// An answer that is one word: number, place, and the word.
pub(crate) fn value_words(r: Result<u64, Refusal>) -> [u64; 3]
    ensures { result ≡ value_words (as_value_answer r) }
{
    match r {
        Ok(word) => [ACCEPTED, NOWHERE, word],
        Err(refusal) => refused(u64::from(refusal), NOWHERE),
    }
}

// The chain without its trailing zeros.
pub fn otterchime_trim(f: &[u64; 17], k: u64, answer: &mut [u64; CHAIN_ANSWER])
    ensures { answer.new ≡ chain_words (answered (trim_outcome f.now k)) }
{
    put(chain_calls::trim(given(f, k)), answer);
}

// The chain after one shift, and how its first element crossed.
pub fn otterchime_shift(f: &[u64; 17], k: u64, answer: &mut [u64; SHIFT_ANSWER])
    ensures { answer.new ≡ shift_words (shift_answer 64 f.now k) }
{
    put_shift(chain_calls::shift(given(f, k)), answer);
}

// The chain's word at the present point.
pub fn otterchime_value(f: &[u64; 17], k: u64, answer: &mut [u64; 3])
    ensures { answer.new ≡ value_words (value_answer f.now k) }
{
    *answer = value_words(chain_calls::value(given(f, k)));
}

// The sum of two chains.
pub fn otterchime_sum(
    f: &[u64; 17],
    k: u64,
    g: &[u64; 17],
    l: u64,
    answer: &mut [u64; CHAIN_ANSWER],
)
    ensures { answer.new ≡ chain_words (answered (sum_outcome 64 f.now k g.now l)) }
{
    put(chain_calls::sum(given(f, k), given(g, l)), answer);
}

// The difference of two chains.
pub fn otterchime_difference(
    f: &[u64; 17],
    k: u64,
    g: &[u64; 17],
    l: u64,
    answer: &mut [u64; CHAIN_ANSWER],
)
    ensures { answer.new ≡ chain_words (answered (difference_outcome 64 f.now k g.now l)) }
{
    put(chain_calls::difference(given(f, k), given(g, l)), answer);
}

// The product of two chains, refused 15 where their trimmed lengths add over 16.
pub fn otterchime_product(
    f: &[u64; 17],
    k: u64,
    g: &[u64; 17],
    l: u64,
    answer: &mut [u64; CHAIN_ANSWER],
)
    ensures { answer.new ≡ chain_words (answered (product_outcome 64 f.now k g.now l)) }
{
    put(chain_calls::product(given(f, k), given(g, l)), answer);
}

// The chain of the polynomial with these coefficients in the index.
pub fn otterchime_from_coefficients(coefficients: &[u64], answer: &mut [u64; CHAIN_ANSWER])
    ensures { answer.new ≡ chain_words (answered (coefficients_outcome 64 coefficients.now)) }
{
    put(chain_coefficients::from_coefficients(coefficients), answer);
}
