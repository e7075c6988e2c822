// Coefficient lists in the index become sum chains, by one table of m! times Stirling numbers of the second kind.
// The arithmetic of chains themselves is in `chain_calls`.
#![tactic(auto)]

ghost use Rattle.std.specs.Prelude.{◌≡◌, ◌-◌, ◌%◌, ◌^◌, ◌<◌, length};
ghost use Rattle.chain.specs.Chain.{trimmed, row, words};
ghost use Rattle.chain.specs.Coefficients.{onto, element_from, from_coefficients};
ghost use Rattle.chain.specs.Answer.{as_chain_answer, answered, coefficients_outcome};

use chain::{Chain, Refusal};

// Entry 17 * j + m is m! * S(j, m), j and m from 0 to 16: how many ways there are to map j things onto m.
// Kept: 01 asks for the numbers in "a table of 289 numbers".
const ONTO: [u64; 289] = [
    1,
    0,
    0,
    0,
    0,
    0,
    0,
    0,
    0,
    0,
    0,
    0,
    0,
    0,
    0,
    0,
    0,
    0,
    1,
    0,
    0,
    0,
    0,
    0,
    0,
    0,
    0,
    0,
    0,
    0,
    0,
    0,
    0,
    0,
    0,
    1,
    2,
    0,
    0,
    0,
    0,
    0,
    0,
    0,
    0,
    0,
    0,
    0,
    0,
    0,
    0,
    0,
    1,
    6,
    6,
    0,
    0,
    0,
    0,
    0,
    0,
    0,
    0,
    0,
    0,
    0,
    0,
    0,
    0,
    1,
    14,
    36,
    24,
    0,
    0,
    0,
    0,
    0,
    0,
    0,
    0,
    0,
    0,
    0,
    0,
    0,
    1,
    30,
    150,
    240,
    120,
    0,
    0,
    0,
    0,
    0,
    0,
    0,
    0,
    0,
    0,
    0,
    0,
    1,
    62,
    540,
    1560,
    1800,
    720,
    0,
    0,
    0,
    0,
    0,
    0,
    0,
    0,
    0,
    0,
    0,
    1,
    126,
    1806,
    8400,
    16800,
    15120,
    5040,
    0,
    0,
    0,
    0,
    0,
    0,
    0,
    0,
    0,
    0,
    1,
    254,
    5796,
    40824,
    126000,
    191520,
    141120,
    40320,
    0,
    0,
    0,
    0,
    0,
    0,
    0,
    0,
    0,
    1,
    510,
    18150,
    186480,
    834120,
    1905120,
    2328480,
    1451520,
    362880,
    0,
    0,
    0,
    0,
    0,
    0,
    0,
    0,
    1,
    1022,
    55980,
    818520,
    5103000,
    16435440,
    29635200,
    30240000,
    16329600,
    3628800,
    0,
    0,
    0,
    0,
    0,
    0,
    0,
    1,
    2046,
    171006,
    3498000,
    29607600,
    129230640,
    322494480,
    479001600,
    419126400,
    199584000,
    39916800,
    0,
    0,
    0,
    0,
    0,
    0,
    1,
    4094,
    519156,
    14676024,
    165528000,
    953029440,
    3162075840,
    6411968640,
    8083152000,
    6187104000,
    2634508800,
    479001600,
    0,
    0,
    0,
    0,
    0,
    1,
    8190,
    1569750,
    60780720,
    901020120,
    6711344640,
    28805736960,
    76592355840,
    130456085760,
    142702560000,
    97037740800,
    37362124800,
    6227020800,
    0,
    0,
    0,
    0,
    1,
    16382,
    4733820,
    249401880,
    4809004200,
    45674188560,
    248619571200,
    843184742400,
    1863435974400,
    2731586457600,
    2637143308800,
    1612798387200,
    566658892800,
    87178291200,
    0,
    0,
    0,
    1,
    32766,
    14250606,
    1016542800,
    25292030400,
    302899156560,
    2060056318320,
    8734434508800,
    24359586451200,
    45950224320000,
    59056027430400,
    50999300352000,
    28332944640000,
    9153720576000,
    1307674368000,
    0,
    0,
    1,
    65534,
    42850116,
    4123173624,
    131542866000,
    1969147121760,
    16540688324160,
    86355926616960,
    297846188640000,
    703098107712000,
    1155068769254400,
    1320663933388800,
    1031319184896000,
    524813313024000,
    156920924160000,
    20922789888000,
];

fn onto(j: usize, m: usize) -> u64
    requires j_bound { j < 17 }
    requires m_bound { m < 17 }
    ensures { result ≡ onto j m }
{
    ONTO[17 * j + m]
}

// Element m of the chain: the sum over j of aj * m! * S(j, m).
fn element(a: &[u64], m: usize) -> u64
    requires a_len_bound { length a.now < 18 }
    requires m_bound { m < 17 }
    ensures { result ≡ element_from 0 a.now m % 2 ^ 64 }
{
    let mut total: u64 = 0;
    for (j, coefficient) in a.iter().enumerate() {
        total = total.wrapping_add(word::times(*coefficient, onto(j, m)));
    }
    total
}

// All 17 elements.
fn elements(a: &[u64]) -> [u64; 17]
    requires { length a.now < 18 }
    ensures { result ≡ row 17 (words 64 (from_coefficients a.now)) }
{
    let mut r = chain_arrays::zeros();
    for m in 0..17 {
        r[m] = element(a, m);
    }
    r
}

// The place of the last element that is not 0, or 0.
// Kept: `chain_arrays::trimmed_length` answers the same, of a slice, for which all elements are written to memory first: 209 instructions for no
// coefficients where this takes 82, and 272 bytes of stack where this takes 144.
fn last_other(elements: [u64; 17]) -> usize
    ensures { result ≡ length (trimmed 0 elements) - 1 }
{
    for at in (0..17).rev() {
        if elements[at] != 0 {
            return at;
        }
    }
    0
}

// The trimmed chain of the polynomial a0 + a1 * i + .. in the index i. Over 17 coefficients are refused.
pub fn from_coefficients(a: &[u64]) -> Result<Chain, Refusal>
    ensures { as_chain_answer result ≡ answered (coefficients_outcome 64 a.now) }
{
    if 17 < a.len() {
        return Err(Refusal::TooManyCoefficients);
    }
    let elements = elements(a);
    Ok(Chain {
        length: last_other(elements),
        elements,
    })
}
