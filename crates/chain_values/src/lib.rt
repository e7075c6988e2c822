// Sum chains by their values: products and powers of values, and the chain through them. Flat loops over 17 words.
// Whether the lengths allow a product is checked by the callers.
#![tactic(auto)]

ghost use Rattle.std.specs.Prelude.{◌≡◌, map, length};
ghost use Rattle.word.specs.Word as Word;
ghost use Rattle.chain.specs.Chain.{row, words};
ghost use Rattle.chain.specs.SumChain.{product, power};
ghost use Rattle.chain_arrays.specs.Operations.{worked};
ghost use Rattle.chain_values.specs.Passes.{met, passes};

use chain_arrays::{Difference, Operation, Product, Sum, word_by_word};

// One pass, from the top down: each word meets its lower neighbour's old value.
fn meet<O: Operation>(part: &mut [u64])
    ensures { part.new ≡ met (worked O.operation) part.old }
{
    for i in (1..part.len()).rev() {
        part[i] = O::worked(part[i], part[i - 1]);
    }
}

// In place: with sums the values of a chain at 0 to 16, with differences the chain through 17 values.
fn passes<O: Operation>(f: &mut [u64])
    requires { length f.old ≡ 17 }
    ensures { f.new ≡ passes (worked O.operation) 16 f.old }
{
    for j in 0..16 {
        meet::<O>(&mut f[j..17]);
    }
}

// The product of two chains.
pub fn product(mut f: [u64; 17], mut g: [u64; 17]) -> [u64; 17]
    ensures { result ≡ row 17 (words 64 (product f g)) }
{
    passes::<Sum>(&mut f);
    passes::<Sum>(&mut g);
    let mut r = word_by_word::<Product>(f, g);
    passes::<Difference>(&mut r);
    r
}

// Every word to the n, in place.
fn raise(f: &mut [u64], n: u64)
    ensures { f.new ≡ map (λ a. Word.power 64 a n) f.old }
{
    for a in f.iter_mut() {
        *a = word::power(*a, n);
    }
}

// A chain to the n.
pub fn power(mut f: [u64; 17], n: u64) -> [u64; 17]
    ensures { result ≡ row 17 (words 64 (power f n)) }
{
    passes::<Sum>(&mut f);
    raise(&mut f, n);
    passes::<Difference>(&mut f);
    f
}
