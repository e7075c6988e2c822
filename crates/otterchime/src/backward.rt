// The calls for tables that run backwards: a forward chain's inverse shift, the calls on backward chains, and conversion from and to them.
// What a call answers is decided in `chain_backward`; chains come and answers are laid out as in `chains`.
// Kept: f, k, g and l travel apart, and a function stands for each call, since include/otterchime.h names these functions and parameters for C.
ghost use Rattle.std.specs.Prelude.{◌≡◌};
ghost use Rattle.chain.specs.Answer.{answered, sum_outcome, value_answer};
ghost use Rattle.chain.specs.BackwardAnswer.{inverse_shift_outcome, backward_shift_outcome, backward_inverse_shift_outcome, backward_product_outcome, to_backward_outcome, to_forward_outcome};
ghost use Rattle.otterchime.specs.Answers.{chain_words, value_words};

use crate::chains::{CHAIN_ANSWER, given, put, value_words};

// A forward chain one index back.
pub fn otterchime_inverse_shift(f: &[u64; 17], k: u64, answer: &mut [u64; CHAIN_ANSWER])
    ensures { answer.new ≡ chain_words (answered (inverse_shift_outcome 64 f.now k)) }
{
    put(chain_backward::inverse_shift(given(f, k)), answer);
}

// A backward chain's word at the present point.
pub fn otterchime_backward_value(f: &[u64; 17], k: u64, answer: &mut [u64; 3])
    ensures { answer.new ≡ value_words (value_answer f.now k) }
{
    *answer = value_words(chain_backward::backward_value(given(f, k)));
}

// A backward chain after one shift.
pub fn otterchime_backward_shift(f: &[u64; 17], k: u64, answer: &mut [u64; CHAIN_ANSWER])
    ensures { answer.new ≡ chain_words (answered (backward_shift_outcome 64 f.now k)) }
{
    put(chain_backward::backward_shift(given(f, k)), answer);
}

// A backward chain one index back.
pub fn otterchime_backward_inverse_shift(f: &[u64; 17], k: u64, answer: &mut [u64; CHAIN_ANSWER])
    ensures { answer.new ≡ chain_words (answered (backward_inverse_shift_outcome 64 f.now k)) }
{
    put(chain_backward::backward_inverse_shift(given(f, k)), answer);
}

// The sum of two backward chains.
pub fn otterchime_backward_sum(
    f: &[u64; 17],
    k: u64,
    g: &[u64; 17],
    l: u64,
    answer: &mut [u64; CHAIN_ANSWER],
)
    ensures { answer.new ≡ chain_words (answered (sum_outcome 64 f.now k g.now l)) }
{
    put(
        chain_backward::backward_sum(given(f, k), given(g, l)),
        answer,
    );
}

// The product of two backward chains, refused 15 where their trimmed lengths add over 16.
pub fn otterchime_backward_product(
    f: &[u64; 17],
    k: u64,
    g: &[u64; 17],
    l: u64,
    answer: &mut [u64; CHAIN_ANSWER],
)
    ensures { answer.new ≡ chain_words (answered (backward_product_outcome 64 f.now k g.now l)) }
{
    put(
        chain_backward::backward_product(given(f, k), given(g, l)),
        answer,
    );
}

// The backward chain that gives what a forward one gives.
pub fn otterchime_to_backward(f: &[u64; 17], k: u64, answer: &mut [u64; CHAIN_ANSWER])
    ensures { answer.new ≡ chain_words (answered (to_backward_outcome 64 f.now k)) }
{
    put(chain_backward::to_backward(given(f, k)), answer);
}

// The forward chain that gives what a backward one gives.
pub fn otterchime_to_forward(f: &[u64; 17], k: u64, answer: &mut [u64; CHAIN_ANSWER])
    ensures { answer.new ≡ chain_words (answered (to_forward_outcome 64 f.now k)) }
{
    put(chain_backward::to_forward(given(f, k)), answer);
}
