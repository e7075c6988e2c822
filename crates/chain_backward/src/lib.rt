// Tables that run backwards: a forward chain's inverse shift, the calls on backward chains, and conversion from and to them, each with its refusals.
// The work on arrays is in `chain_arrays`, the calls on forward chains in `chain_calls`.
#![tactic(auto)]

ghost use Rattle.std.specs.Prelude.{◌≡◌, ◌+◌, ◌-◌, ◌*◌, ◌%◌, ◌^◌, length, take};
ghost use Rattle.chain.specs.Chain.{shift_from_top, words, trimmed, row};
ghost use Rattle.chain.specs.BackwardChain.{converted};
ghost use Rattle.chain.specs.Answer.{as_chain_answer, as_value_answer, answered, chain, unless_long, sum_outcome, value_answer};
ghost use Rattle.chain.specs.BackwardAnswer.{inverse_shift_outcome, backward_shift_outcome, backward_inverse_shift_outcome, backward_product_outcome, to_backward_outcome, to_forward_outcome};
ghost use Rattle.chain_arrays.specs.Operations.{worked};
ghost use Rattle.chain_backward.specs.Alternating.{alternated};

use chain::{Chain, Refusal};
use chain_arrays::{Difference, Operation, Sum, accepted, given};

// The chain after one step from the top down.
fn from_top<O: Operation>(f: Chain) -> Result<Chain, Refusal>
    ensures { as_chain_answer result ≡ answered (unless_long f.length (chain (trimmed 0 (shift_from_top (worked O.operation) (row 17 (take (f.length + 1) f.elements)))))) }
{
    let mut stepped = given(f)?;
    chain_arrays::shift_from_top::<O>(&mut stepped);
    Ok(accepted(stepped))
}

// A forward chain one index back.
pub fn inverse_shift(f: Chain) -> Result<Chain, Refusal>
    ensures { as_chain_answer result ≡ answered (inverse_shift_outcome 64 f.elements f.length) }
{
    from_top::<Difference>(f)
}

// The word at the present point: a backward chain's first element, as a forward one's.
pub fn backward_value(f: Chain) -> Result<u64, Refusal>
    ensures { as_value_answer result ≡ value_answer f.elements f.length }
{
    chain_calls::value(f)
}

// A backward chain one index on.
pub fn backward_shift(f: Chain) -> Result<Chain, Refusal>
    ensures { as_chain_answer result ≡ answered (backward_shift_outcome 64 f.elements f.length) }
{
    from_top::<Sum>(f)
}

// A backward chain one index back, from the bottom up.
pub fn backward_inverse_shift(f: Chain) -> Result<Chain, Refusal>
    ensures { as_chain_answer result ≡ answered (backward_inverse_shift_outcome 64 f.elements f.length) }
{
    let mut shifted = given(f)?;
    chain_arrays::shift_part::<Difference>(&mut shifted);
    Ok(accepted(shifted))
}

// Element by element, as for forward chains.
pub fn backward_sum(f: Chain, g: Chain) -> Result<Chain, Refusal>
    ensures { as_chain_answer result ≡ answered (sum_outcome 64 f.elements f.length g.elements g.length) }
{
    chain_calls::sum(f, g)
}

// A word by the sign of its place: every second one is taken from 0.
fn signed_at(at: usize, a: u64) -> u64
    ensures { result ≡ ((2 ^ 64 - 1) ^ at * a) % 2 ^ 64 }
{
    if at % 2 == 0 {
        return a;
    }
    a.wrapping_neg()
}

// The chain with alternating signs. What a backward chain gives walking back, that forward chain gives walking on.
fn alternated(f: Chain) -> Chain
    ensures length { result.length ≡ f.length }
    ensures elements { result.elements ≡ words 64 (alternated 64 f.elements) }
{
    let mut elements = chain_arrays::zeros();
    for i in 0..17 {
        elements[i] = signed_at(i, f.elements[i]);
    }
    Chain {
        length: f.length,
        elements,
    }
}

// The product of forward chains with alternating signs, its signs alternated again. Refused where the trimmed lengths add over 16.
pub fn backward_product(f: Chain, g: Chain) -> Result<Chain, Refusal>
    ensures { as_chain_answer result ≡ answered (backward_product_outcome 64 f.elements f.length g.elements g.length) }
{
    let product = chain_calls::product(alternated(f), alternated(g))?;
    Ok(alternated(product))
}

// In place: the first word stays, the rest goes one step from the top down, and so on with the rest.
fn convert<O: Operation>(f: &mut [u64])
    requires { length f.old ≡ 17 }
    ensures { f.new ≡ converted (shift_from_top (worked O.operation)) f.old }
{
    for j in 1..17 {
        chain_arrays::shift_from_top::<O>(&mut f[j..17]);
    }
}

// The chain converted.
fn conversion<O: Operation>(f: Chain) -> Result<Chain, Refusal>
    ensures { as_chain_answer result ≡ answered (unless_long f.length (chain (trimmed 0 (converted (shift_from_top (worked O.operation)) (row 17 (take (f.length + 1) f.elements)))))) }
{
    let mut elements = given(f)?;
    convert::<O>(&mut elements);
    Ok(accepted(elements))
}

// The backward chain that gives what a forward one gives.
pub fn to_backward(f: Chain) -> Result<Chain, Refusal>
    ensures { as_chain_answer result ≡ answered (to_backward_outcome 64 f.elements f.length) }
{
    conversion::<Difference>(f)
}

// The forward chain that gives what a backward one gives.
pub fn to_forward(f: Chain) -> Result<Chain, Refusal>
    ensures { as_chain_answer result ≡ answered (to_forward_outcome 64 f.elements f.length) }
{
    conversion::<Sum>(f)
}
