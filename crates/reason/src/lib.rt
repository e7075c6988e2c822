// Why a row is still there, as mathematics: the folded trees that rows stand for, the reasons and their words, and the theorems about them. No call
// lives here; it is in `reason_call`.
#![tactic(auto)]

ghost use Rattle.std.specs.Prelude.{◌≡◌};
ghost use Rattle.reason.specs.Answer.{reason_number};

// The reasons why a row of kinds 3 to 8 is still there, with their numbers in document 02's order.
#[derive(Clone, Copy, Debug, PartialEq, Eq)]
pub enum Reason {
    OperandStays = 1,
    LengthsAddOver = 2,
    LengthTimesOver = 3,
    AgainstProduct = 4,
    TwoProducts = 5,
    ExponentNeither = 6,
    WouldFold = 7,
}

impl From<Reason> for u64 {
    ghost from_gives = { λ reason number. number ≡ reason_number reason };

    fn from(reason: Reason) -> u64 {
        reason as u64
    }
}

// Why a row is still there, if it is of kinds 3 to 8, and the first and the end byte of the text that it came from. Of a row that its plan doesn't
// count there is nothing: no reason, and 0 and 0.
#[derive(Clone, Copy, Debug, PartialEq, Eq)]
pub struct Explained {
    pub reason: Option<Reason>,
    pub first: u64,
    pub end: u64,
}

// What the folding rules see of an operand: its kind, the length of its chain and its first element; length and element are 0 of an operator.
// Kept: `kind` is a number and no enum of nine kinds, since `reason_numbers::sum_reason` and its kin promise a reason for an operand of any kind.
#[derive(Clone, Copy, Debug, PartialEq, Eq)]
pub struct Seen {
    pub kind: u64,
    pub length: usize,
    pub first: u64,
}
