// The chain calls of the door. A chain comes as 17 words f and its length k; words past the length are not read.
// The calls for tables that run backwards are in `backward`, those on formulas, plans and readings in the crate's root.
// Kept: each function is its twin of `otterchime` under the name that include/otterchime.h gives it, since C calls these names and a library exports none.
ghost use Rattle.std.specs.Prelude.{◌≡◌};
ghost use Rattle.chain.specs.Answer.{answered, trim_outcome, sum_outcome, difference_outcome, product_outcome, shift_answer, coefficients_outcome, value_answer};
ghost use Rattle.otterchime.specs.Answers.{chain_words, shift_words, value_words};

use otterchime::chains::{CHAIN_ANSWER, SHIFT_ANSWER};

// The chain without its trailing zeros.
#[unsafe(no_mangle)]
pub extern "C" fn otterchime_trim(f: &[u64; 17], k: u64, answer: &mut [u64; CHAIN_ANSWER])
    ensures { answer.new ≡ chain_words (answered (trim_outcome f.now k)) }
{
    otterchime::chains::otterchime_trim(f, k, answer)
}

// The chain after one shift, and how its first element crossed.
#[unsafe(no_mangle)]
pub extern "C" fn otterchime_shift(f: &[u64; 17], k: u64, answer: &mut [u64; SHIFT_ANSWER])
    ensures { answer.new ≡ shift_words (shift_answer 64 f.now k) }
{
    otterchime::chains::otterchime_shift(f, k, answer)
}

// The chain's word at the present point.
#[unsafe(no_mangle)]
pub extern "C" fn otterchime_value(f: &[u64; 17], k: u64, answer: &mut [u64; 3])
    ensures { answer.new ≡ value_words (value_answer f.now k) }
{
    otterchime::chains::otterchime_value(f, k, answer)
}

// The sum of two chains.
#[unsafe(no_mangle)]
pub extern "C" fn otterchime_sum(
    f: &[u64; 17],
    k: u64,
    g: &[u64; 17],
    l: u64,
    answer: &mut [u64; CHAIN_ANSWER],
)
    ensures { answer.new ≡ chain_words (answered (sum_outcome 64 f.now k g.now l)) }
{
    otterchime::chains::otterchime_sum(f, k, g, l, answer)
}

// The difference of two chains.
#[unsafe(no_mangle)]
pub extern "C" fn otterchime_difference(
    f: &[u64; 17],
    k: u64,
    g: &[u64; 17],
    l: u64,
    answer: &mut [u64; CHAIN_ANSWER],
)
    ensures { answer.new ≡ chain_words (answered (difference_outcome 64 f.now k g.now l)) }
{
    otterchime::chains::otterchime_difference(f, k, g, l, answer)
}

// The product of two chains, refused 15 where their trimmed lengths add over 16.
#[unsafe(no_mangle)]
pub extern "C" fn otterchime_product(
    f: &[u64; 17],
    k: u64,
    g: &[u64; 17],
    l: u64,
    answer: &mut [u64; CHAIN_ANSWER],
)
    ensures { answer.new ≡ chain_words (answered (product_outcome 64 f.now k g.now l)) }
{
    otterchime::chains::otterchime_product(f, k, g, l, answer)
}

// The chain of the polynomial with these coefficients in the index.
#[unsafe(no_mangle)]
pub extern "C" fn otterchime_from_coefficients(
    coefficients: &[u64],
    answer: &mut [u64; CHAIN_ANSWER],
)
    ensures { answer.new ≡ chain_words (answered (coefficients_outcome 64 coefficients.now)) }
{
    otterchime::chains::otterchime_from_coefficients(coefficients, answer)
}
