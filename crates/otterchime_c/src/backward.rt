// The calls for tables that run backwards: a forward chain's inverse shift, the calls on backward chains, and conversion from and to them.
// The other chain calls are in `chains`.
// Kept: each function is its twin of `otterchime` under the name that include/otterchime.h gives it, since C calls these names and a library exports none.
ghost use Rattle.std.specs.Prelude.{◌≡◌};
ghost use Rattle.chain.specs.Answer.{answered, sum_outcome, value_answer};
ghost use Rattle.chain.specs.BackwardAnswer.{inverse_shift_outcome, backward_shift_outcome, backward_inverse_shift_outcome, backward_product_outcome, to_backward_outcome, to_forward_outcome};
ghost use Rattle.otterchime.specs.Answers.{chain_words, value_words};

use otterchime::chains::CHAIN_ANSWER;

// A forward chain one index back.
#[unsafe(no_mangle)]
pub extern "C" fn otterchime_inverse_shift(f: &[u64; 17], k: u64, answer: &mut [u64; CHAIN_ANSWER])
    ensures { answer.new ≡ chain_words (answered (inverse_shift_outcome 64 f.now k)) }
{
    otterchime::backward::otterchime_inverse_shift(f, k, answer)
}

// A backward chain's word at the present point.
#[unsafe(no_mangle)]
pub extern "C" fn otterchime_backward_value(f: &[u64; 17], k: u64, answer: &mut [u64; 3])
    ensures { answer.new ≡ value_words (value_answer f.now k) }
{
    otterchime::backward::otterchime_backward_value(f, k, answer)
}

// A backward chain after one shift.
#[unsafe(no_mangle)]
pub extern "C" fn otterchime_backward_shift(f: &[u64; 17], k: u64, answer: &mut [u64; CHAIN_ANSWER])
    ensures { answer.new ≡ chain_words (answered (backward_shift_outcome 64 f.now k)) }
{
    otterchime::backward::otterchime_backward_shift(f, k, answer)
}

// A backward chain one index back.
#[unsafe(no_mangle)]
pub extern "C" fn otterchime_backward_inverse_shift(
    f: &[u64; 17],
    k: u64,
    answer: &mut [u64; CHAIN_ANSWER],
)
    ensures { answer.new ≡ chain_words (answered (backward_inverse_shift_outcome 64 f.now k)) }
{
    otterchime::backward::otterchime_backward_inverse_shift(f, k, answer)
}

// The sum of two backward chains.
#[unsafe(no_mangle)]
pub extern "C" fn otterchime_backward_sum(
    f: &[u64; 17],
    k: u64,
    g: &[u64; 17],
    l: u64,
    answer: &mut [u64; CHAIN_ANSWER],
)
    ensures { answer.new ≡ chain_words (answered (sum_outcome 64 f.now k g.now l)) }
{
    otterchime::backward::otterchime_backward_sum(f, k, g, l, answer)
}

// The product of two backward chains, refused 15 where their trimmed lengths add over 16.
#[unsafe(no_mangle)]
pub extern "C" fn otterchime_backward_product(
    f: &[u64; 17],
    k: u64,
    g: &[u64; 17],
    l: u64,
    answer: &mut [u64; CHAIN_ANSWER],
)
    ensures { answer.new ≡ chain_words (answered (backward_product_outcome 64 f.now k g.now l)) }
{
    otterchime::backward::otterchime_backward_product(f, k, g, l, answer)
}

// The backward chain that gives what a forward one gives.
#[unsafe(no_mangle)]
pub extern "C" fn otterchime_to_backward(f: &[u64; 17], k: u64, answer: &mut [u64; CHAIN_ANSWER])
    ensures { answer.new ≡ chain_words (answered (to_backward_outcome 64 f.now k)) }
{
    otterchime::backward::otterchime_to_backward(f, k, answer)
}

// The forward chain that gives what a backward one gives.
#[unsafe(no_mangle)]
pub extern "C" fn otterchime_to_forward(f: &[u64; 17], k: u64, answer: &mut [u64; CHAIN_ANSWER])
    ensures { answer.new ≡ chain_words (answered (to_forward_outcome 64 f.now k)) }
{
    otterchime::backward::otterchime_to_forward(f, k, answer)
}
