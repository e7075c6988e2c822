// What the readers of a formula answer one another. The scan that decides the grammar, and what the readers' contracts say by it, are in specs/.
// Nobody has to believe them: proofs/ ties them to the grammar and the refusals of `formula`. The readers are in the crates above.
#![tactic(auto)]

ghost use Rattle.std.specs.Prelude.{◌≢◌, Some};

// A code of a fault is the refusal's number times this, and the place, which is less.
pub const PLACES: u64 = 2048;

// The words of all nodes at two words each, kind and word, and at four, with the span behind them.
pub const PLAIN_WORDS: usize = 2 * formula::MOST_NODES;

pub const SPANNED_WORDS: usize = 4 * formula::MOST_NODES;

// A number of a text: its end, its value if it fits a word, and 1 if it is odd.
// Kept: oddness is a number here and below, since it is multiplied, and added modulo 2, as the definition `parity` does.
#[derive(Clone, Copy)]
pub struct Decimal {
    pub at: usize,
    pub value: Option<u64>,
    pub odd: u8,
}

// What waits on the left of a sign that joins it to what is read next: the first byte of its text, the sign if there is something yet, whether x
// stands in it, 1 if its value is odd.
#[derive(Clone, Copy)]
pub struct LeftOperand {
    pub first: usize,
    pub sign: Option<u8>,
    pub variable: bool,
    pub odd: u8,
    ghost is_sign: { sign ≢ Some 0 },
}

// What a reader read: a tree that ends before `at`, whether x stands in it, 1 if its value is odd, the nodes and the least fault so far.
// A reader that read none answers the place past which no formula goes on.
// Kept: the least fault is a number, the code of a Refusal or 9 times PLACES for none, since the definitions take the minimum of codes (`faulted`,
// `code`) and one word has to hold it.
#[derive(Clone, Copy)]
pub struct Parsed {
    pub variable: bool,
    pub odd: u8,
    pub at: usize,
    pub nodes: usize,
    pub fault: u64,
}
