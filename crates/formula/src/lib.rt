// What reading a formula answers. The grammar, the tree, its value and the refusals are in specs/, laws of theirs in proofs/.
// The readers themselves are in `formula_digits`, `formula_nodes` and `formula_readers`; `formula_read` judges a whole text.
#![tactic(auto)]

ghost use Rattle.std.specs.Prelude.{◌≡◌};
ghost use Rattle.formula.specs.Words.{kind_number, KindOf};
ghost use Rattle.formula.specs.Answer.{refusal_number, refusal_place};

// The bytes of a text at most.
pub const LONGEST_TEXT: usize = 1024;

// The nodes of a tree at most, and the words that a tree takes: the node count, then two words a node.
pub const MOST_NODES: usize = 128;

pub const TREE_WORDS: usize = 1 + 2 * MOST_NODES;

// The kinds of nodes, by their numbers in the words of a tree; from 3 on they are those of a plan's rows.
#[derive(Clone, Copy, Debug, PartialEq, Eq)]
pub enum NodeKind {
    Number = 0,
    Variable = 1,
    Sum = 3,
    Difference = 4,
    Product = 5,
    Minus = 6,
    LiteralPower = 7,
    Raise = 8,
}

// A number that is no node's kind.
#[derive(Clone, Copy, Debug, PartialEq, Eq)]
pub struct UnknownKind(pub u64);

impl TryFrom<u64> for NodeKind {
    type Error = UnknownKind;

    ghost try_from_gives = { KindOf };

    fn try_from(number: u64) -> Result<NodeKind, UnknownKind> {
        match number {
            0 => Ok(NodeKind::Number),
            1 => Ok(NodeKind::Variable),
            3 => Ok(NodeKind::Sum),
            4 => Ok(NodeKind::Difference),
            5 => Ok(NodeKind::Product),
            6 => Ok(NodeKind::Minus),
            7 => Ok(NodeKind::LiteralPower),
            8 => Ok(NodeKind::Raise),
            _ => Err(UnknownKind(number)),
        }
    }
}

impl From<NodeKind> for u64 {
    ghost from_gives = { λ kind n. n ≡ kind_number kind };

    fn from(kind: NodeKind) -> u64 {
        kind as u64
    }
}

// Why a formula is refused, by 01's table, with the place in the text where that depends on the text.
#[derive(Clone, Copy, Debug, PartialEq, Eq)]
pub enum Refusal {
    BufferTooShort,
    TextTooLong,
    BracketsTooDeep(u64),
    NotAFormula(u64),
    NumberTooLarge(u64),
    ExponentTooLarge(u64),
    TooManyNodes,
    BaseNotOdd(u64),
}

impl Refusal {
    // The refusal's number in 01's table.
    pub fn number(self) -> u64
        ensures { result ≡ refusal_number self }
    {
        match self {
            Refusal::BufferTooShort => 1,
            Refusal::TextTooLong => 2,
            Refusal::BracketsTooDeep(_) => 3,
            Refusal::NotAFormula(_) => 4,
            Refusal::NumberTooLarge(_) => 5,
            Refusal::ExponentTooLarge(_) => 6,
            Refusal::TooManyNodes => 7,
            Refusal::BaseNotOdd(_) => 8,
        }
    }

    // The place that the refusal names: 1024 for a text that is too long, 0 where it names none.
    pub fn place(self) -> u64
        ensures { result ≡ refusal_place self }
    {
        match self {
            Refusal::BufferTooShort | Refusal::TooManyNodes => 0,
            Refusal::TextTooLong => LONGEST_TEXT as u64,
            Refusal::BracketsTooDeep(place)
            | Refusal::NotAFormula(place)
            | Refusal::NumberTooLarge(place)
            | Refusal::ExponentTooLarge(place)
            | Refusal::BaseNotOdd(place) => place,
        }
    }
}
