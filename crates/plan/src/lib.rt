// What the calls on plans answer, and a line of the table of row kinds. What a plan is and means is in specs/, its laws in proofs/.
// The calls are in `plan_sound`, `plan_costs`, `plan_fill` and `plan_eras`, the work of a point in `plan_points`; formulas live above.
#![tactic(auto)]

ghost use Rattle.std.specs.Prelude.{◌≡◌};
ghost use Rattle.plan.specs.Answers.{refusal_number};

// The layout: words of a row, the place of its elements and their number, the place of its span, the rows, and the words of a plan.
pub const ROW_WORDS: usize = 22;

pub const ELEMENTS_START: usize = 3;

pub const ELEMENT_COUNT: usize = 17;

pub const SPAN_START: usize = 20;

pub const MOST_ROWS: usize = 128;

pub const PLAN_WORDS: usize = 1 + MOST_ROWS * ROW_WORDS;

// The words of a plan, lent as a whole.
pub type PlanWords = [u64; PLAN_WORDS];

// No text that a row came from ends past this many bytes.
// Kept: `formula` has this limit as well; formulas live above plans, and a lent plan's spans need none of them.
pub const LONGEST_TEXT: u64 = 1024;

// What a row of a kind always costs, and how many operand rows it has.
#[derive(Clone, Copy)]
pub struct Kind {
    pub cost: u64,
    pub operands: u64,
}

// Why a call on a plan refuses it.
#[derive(Clone, Copy, Debug, PartialEq, Eq)]
pub enum Refusal {
    // Fewer words are lent than a plan has.
    TooShort,
    Unsound,
    // Eras are counted for the root alone, and it is neither a constant nor a sum chain.
    RootNotSum,
}

// The number by which 01 and document 02 name the refusal; its place is 0.
impl From<Refusal> for u64 {
    ghost from_gives = { λ refusal number. number ≡ refusal_number refusal };

    fn from(refusal: Refusal) -> u64 {
        match refusal {
            Refusal::TooShort => 1,
            Refusal::Unsound => 9,
            Refusal::RootNotSum => 16,
        }
    }
}

// The points that a fill has written, and the budget that it has spent.
#[derive(Clone, Copy, Debug, PartialEq, Eq)]
pub struct FilledPoints {
    pub points: usize,
    pub spent: u64,
}

// The same of filling with era count, and the crossings of the root over the points written, added up.
#[derive(Clone, Copy, Debug, PartialEq, Eq)]
pub struct CountedPoints {
    pub points: usize,
    pub spent: u64,
    pub sum: i64,
}
