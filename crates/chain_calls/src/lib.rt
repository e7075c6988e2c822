// Sum chains for callers: trim, sum, difference, product, shift and value, each with its refusals.
// The work on arrays is in `chain_arrays` and `chain_values`; formulas and plans live above.
#![tactic(auto)]

ghost use Rattle.std.specs.Prelude.{◌≡◌, ◌+◌, take};
ghost use Rattle.chain.specs.Chain.{trimmed, row};
ghost use Rattle.chain_arrays.specs.Operations.{word_by_word};
ghost use Rattle.chain.specs.Answer.{as_chain_answer, as_shift_answer, as_value_answer, answered, chain, unless_long, trim_outcome, sum_outcome, difference_outcome, product_outcome, shift_answer, value_answer};

use chain::{Chain, Refusal, Shifted};
use chain_arrays::{Difference, LONGEST, Operation, Sum, accepted, given, trimmed_length};

// The chain without its trailing zeros.
pub fn trim(f: Chain) -> Result<Chain, Refusal>
    ensures { as_chain_answer result ≡ answered (trim_outcome f.elements f.length) }
{
    let kept = given(f)?;
    Ok(accepted(kept))
}

// The sum or the difference.
fn combined<O: Operation>(f: Chain, g: Chain) -> Result<Chain, Refusal>
    ensures { as_chain_answer result ≡ answered (unless_long f.length (unless_long g.length (chain (trimmed 0 (word_by_word O.operation (row 17 (take (f.length + 1) f.elements)) (row 17 (take (g.length + 1) g.elements))))))) }
{
    let left = given(f)?;
    let right = given(g)?;
    let words = chain_arrays::word_by_word::<O>(left, right);
    Ok(accepted(words))
}

pub fn sum(f: Chain, g: Chain) -> Result<Chain, Refusal>
    ensures { as_chain_answer result ≡ answered (sum_outcome 64 f.elements f.length g.elements g.length) }
{
    combined::<Sum>(f, g)
}

pub fn difference(f: Chain, g: Chain) -> Result<Chain, Refusal>
    ensures { as_chain_answer result ≡ answered (difference_outcome 64 f.elements f.length g.elements g.length) }
{
    combined::<Difference>(f, g)
}

// Refused where the trimmed lengths add over 16.
pub fn product(f: Chain, g: Chain) -> Result<Chain, Refusal>
    ensures { as_chain_answer result ≡ answered (product_outcome 64 f.elements f.length g.elements g.length) }
{
    let f_words = given(f)?;
    let g_words = given(g)?;
    if LONGEST < trimmed_length(&f_words, 0) + trimmed_length(&g_words, 0) {
        return Err(Refusal::ProductTooLong);
    }
    Ok(accepted(chain_values::product(f_words, g_words)))
}

// The chain after one shift, and how its first element crossed. Past the length the kept words are 0, so a constant does not cross.
pub fn shift(f: Chain) -> Result<Shifted, Refusal>
    ensures { as_shift_answer result ≡ shift_answer 64 f.elements f.length }
{
    let mut words = given(f)?;
    let crossing = chain_arrays::crossed(words[0], words[1]);
    chain_arrays::shift_part::<Sum>(&mut words);
    let chain = accepted(words);
    Ok(Shifted { chain, crossing })
}

// The word at the present point.
pub fn value(f: Chain) -> Result<u64, Refusal>
    ensures { as_value_answer result ≡ value_answer f.elements f.length }
{
    if LONGEST < f.length {
        return Err(Refusal::TooLong);
    }
    Ok(f.elements[0])
}
