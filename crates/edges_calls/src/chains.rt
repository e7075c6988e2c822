// Chains worked out by the library's calls from postfix text, on a stack of three; and lists of coefficients of any count.
// How the words of a list are read is in `words`.
ghost use Rattle.std.specs.Prelude.{◌≤◌};

use crate::backward;
use chain::{Chain, Refusal};
use edges_print::{Judgement, List, clean};
use edges_text::{text, words};
use std::io;

// 17 words with no pattern each: m7 is the chain of length 7 that M begins with, o7 the same of O.
const M: [u64; 17] = [
    8655628691030458795,
    5256094207684167668,
    4180856497841727578,
    107979628678664349,
    15756039724148852180,
    13115661919474116790,
    4387717867488172214,
    4103110843326994392,
    5471255634648745445,
    15032457632618298465,
    12298722244620105259,
    17555418861524147830,
    11106931077284914532,
    409181037405618471,
    4064752486773932908,
    11119541076410096229,
    375820720504423710,
];

const O: [u64; 17] = [
    2840057397584532836,
    11179614465513572718,
    11639083774110332977,
    8572736460732607874,
    11043835257696556159,
    12978061762861636387,
    18177973469798822320,
    14437370032020131157,
    6673710908173084901,
    7752820852661137699,
    1585321266115439055,
    9118092803556517201,
    9532229974515371666,
    3177742345388760290,
    10378958388058473350,
    10676154810568506706,
    5216717000746992735,
];

pub const ZERO: Chain = Chain {
    length: 0,
    elements: [0; 17],
};

// The most coefficients that a case lists.
const MOST_LISTED: usize = 64;

// Three answers. What is refused stands for the constant 0 in the calls that follow.
#[derive(Clone, Copy)]
pub struct Stack {
    pub top: Result<Chain, Refusal>,
    pub second: Result<Chain, Refusal>,
    pub third: Result<Chain, Refusal>,
}

impl Stack {
    fn new() -> Stack {
        let zero = Ok(ZERO);
        Stack {
            top: zero,
            second: zero,
            third: zero,
        }
    }

    pub fn top(self) -> Chain {
        self.top.unwrap_or(ZERO)
    }

    pub fn second(self) -> Chain {
        self.second.unwrap_or(ZERO)
    }

    fn pushed(self, top: Result<Chain, Refusal>) -> Stack {
        Stack {
            top,
            second: self.top,
            third: self.second,
        }
    }

    // With an answer in the place of the top.
    pub fn with_top(self, top: Result<Chain, Refusal>) -> Stack {
        Stack {
            top,
            second: self.second,
            third: self.third,
        }
    }

    // With an answer in the place of the two uppermost ones.
    pub fn with_both(self, top: Result<Chain, Refusal>) -> Stack {
        Stack {
            top,
            second: self.third,
            third: self.third,
        }
    }
}

// How many of a chain's words are its elements.
fn held(f: Chain) -> usize
    ensures { result ≤ 17 }
{
    f.length.min(16) + 1
}

fn shifted(f: Chain) -> Result<Chain, Refusal> {
    let shifted = chain_calls::shift(f)?;
    Ok(shifted.chain)
}

// The chain that has another one's elements for coefficients.
fn of_elements(f: Chain) -> Result<Chain, Refusal> {
    let count = f.length.wrapping_add(1).min(17);
    chain_coefficients::from_coefficients(&f.elements[..count])
}

// A list of words, or m or o with a length. The length of a listed chain is one less than the words, so over 16 from 18 words on.
pub fn operand(token: &[u8]) -> Chain {
    match token {
        [b'm', ..] => Chain {
            length: text::number(token, 0) as usize,
            elements: M,
        },
        [b'o', ..] => Chain {
            length: text::number(token, 0) as usize,
            elements: O,
        },
        _ => {
            let elements = words::list::<17>(token);
            Chain {
                length: words::count(token).wrapping_sub(1),
                elements,
            }
        }
    }
}

// The stack after a token. A list of words pushes a chain, and so does m or o with a length. An operator is a single byte: + - * take the
// two uppermost chains; E shifts the top, T trims it, C takes its words as coefficients and D pushes it again. The other letters are in `backward`.
fn step(stack: Stack, token: &[u8]) -> Stack {
    let f = stack.second();
    let g = stack.top();
    match token {
        [b'+'] => stack.with_both(chain_calls::sum(f, g)),
        [b'-'] => stack.with_both(chain_calls::difference(f, g)),
        [b'*'] => stack.with_both(chain_calls::product(f, g)),
        [b'E'] => stack.with_top(shifted(g)),
        [b'T'] => stack.with_top(chain_calls::trim(g)),
        [b'C'] => stack.with_top(of_elements(g)),
        [b'D'] => stack.pushed(stack.top),
        [letter] if b'A' <= *letter => backward::step(stack, *letter),
        _ => stack.pushed(Ok(operand(token))),
    }
}

// The answer on the stack's top after all tokens.
pub fn work(tokens: &[u8]) -> Result<Chain, Refusal> {
    let mut stack = Stack::new();
    for token in tokens.split_inclusive(|byte| *byte == b' ') {
        stack = step(stack, text::unmarked(token, b' '));
    }
    stack.top
}

// The chain that is worked out; a refusal stands for the constant 0.
pub fn worked(tokens: &[u8]) -> Chain {
    work(tokens).unwrap_or(ZERO)
}

// number place length elements, and whether the words past the length are clean
pub fn print(rt: &impl Print, name: &[u8], answer: Result<Chain, Refusal>) -> io::Result<()> {
    let judgement = Judgement::of(&answer);
    let f = answer.unwrap_or(ZERO);
    let count = held(f);
    let (held, rest) = f.elements.split_at(count);
    rt.write_all(name)?;
    println!(rt; "\t{judgement} {} {} {}", f.length, List(held), clean(rest))
}

// number place word: the present value
pub fn value<F: Fn(Chain) -> Result<u64, Refusal>>(
    rt: &impl Print,
    name: &[u8],
    body: &[u8],
    present: F,
) -> io::Result<()>
    requires { F.IsAlwaysCallable present }
{
    let answer = present(worked(body));
    rt.write_all(name)?;
    println!(rt; "\t{} {}", Judgement::of(&answer), answer.unwrap_or(0))
}

// The values at 20 indices: the present one, and then what a step makes of the chain, in turn. What is refused is 0.
pub fn values<F: Fn(Chain) -> Result<u64, Refusal>, G: Fn(Chain) -> Result<Chain, Refusal>>(
    first: Chain,
    present: F,
    next: G,
) -> [u64; 20]
    requires present { F.IsAlwaysCallable present }
    requires next { G.IsAlwaysCallable next }
{
    let mut f = first;
    let mut values = [0; 20];
    for value in values.iter_mut() {
        *value = present(f).unwrap_or(0);
        f = next(f).unwrap_or(ZERO);
    }
    values
}

// value,value,.. at the first 20 indices
pub fn sequence(rt: &impl Print, name: &[u8], body: &[u8]) -> io::Result<()> {
    let values = values(worked(body), chain_calls::value, shifted);
    rt.write_all(name)?;
    println!(rt; "\t{}", List(&values))
}

// The chain of a list of coefficients, which may be empty or have more than 17 words.
pub fn list(rt: &impl Print, name: &[u8], body: &[u8]) -> io::Result<()> {
    let words = words::list::<MOST_LISTED>(body);
    let count = words::count(body).min(MOST_LISTED);
    print(
        rt,
        name,
        chain_coefficients::from_coefficients(&words[..count]),
    )
}
