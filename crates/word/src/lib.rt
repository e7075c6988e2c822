// Words modulo 2^64: the product and the power that the language's own operators leave undefined, a word read as a signed number, and lent words set to 0.
// Sums and differences are the library's wrapping ones; chains and formulas live above.
#![tactic(auto)]

ghost use Rattle.std.specs.Prelude.{◌≡◌, length, replicate};
ghost use Rattle.word.specs.Word.{product, power};
ghost use Rattle.word.specs.Signed.{signed};

// One more than the largest half word, 2^32.
const HALF: u64 = 4294967296;

// a * b modulo 2^64, from half words: the high halves' product falls out of the word.
// No partial product wraps; the compiler makes one multiply of it.
pub fn times(a: u64, b: u64) -> u64
    ensures { result ≡ product 64 a b }
{
    let low_a = a % HALF;
    let high_a = a / HALF;
    let low_b = b % HALF;
    let high_b = b / HALF;
    let cross = (low_a * high_b % HALF + high_a * low_b % HALF) % HALF;
    (cross * HALF).wrapping_add(low_a * low_b)
}

// b to the n modulo 2^64, by squaring: at most 64 turns of two products each. 0^0 is 1.
pub fn power(b: u64, n: u64) -> u64
    ensures { result ≡ power 64 b n }
{
    let mut result = 1;
    let mut square = b;
    let mut left = n;
    // Kept: halving an exponent counts no index, and the library's `wrapping_pow` takes a u32.
    while 0 < left {
        if left % 2 == 1 {
            result = times(result, square);
        }
        square = times(square, square);
        left = left / 2;
    }
    result
}

// A word read as a signed number.
pub fn signed(word: u64) -> i64
    ensures { result ≡ signed 64 word }
{
    word.cast_signed()
}

// 0 in every word that is lent.
pub fn clear(words: &mut [u64])
    ensures { words.new ≡ replicate (length words.old) 0 }
{
    words.fill(0);
}
