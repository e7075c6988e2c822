// The table of row kinds, used by soundness and cost alike.
// What a row's own words add to it is in the crate's root, and in `plan_costs` and `plan_points`.
ghost use Rattle.std.specs.Prelude.{◌≡◌};
ghost use Rattle.plan.specs.Row.{kind_facts, operand_count, is_chain};
ghost use Rattle.plan_rows.specs.Kinds.{kind_number, ReadsKind};

use plan::Kind;

// The kinds of 01's table, by their numbers.
// Kept: (a) word 0 of a row in a lent plan is such a number, which the fold writes and compares; the theorems on rows hold these numbers.
pub const CONSTANT: u64 = 0;

pub const SUM_CHAIN: u64 = 1;

pub const PRODUCT_CHAIN: u64 = 2;

pub const SUM: u64 = 3;

pub const DIFFERENCE: u64 = 4;

pub const PRODUCT: u64 = 5;

pub const MINUS: u64 = 6;

pub const LITERAL_POWER: u64 = 7;

pub const RAISE: u64 = 8;

// The kinds themselves.
#[derive(Clone, Copy, Debug, PartialEq, Eq)]
pub enum RowKind {
    Constant,
    SumChain,
    ProductChain,
    Sum,
    Difference,
    Product,
    Minus,
    LiteralPower,
    Raise,
}

// A number that is no kind's.
#[derive(Clone, Copy, Debug, PartialEq, Eq)]
pub struct NoKind;

impl From<RowKind> for u64 {
    ghost from_gives = { λ kind number. number ≡ kind_number kind };

    fn from(kind: RowKind) -> u64 {
        match kind {
            RowKind::Constant => CONSTANT,
            RowKind::SumChain => SUM_CHAIN,
            RowKind::ProductChain => PRODUCT_CHAIN,
            RowKind::Sum => SUM,
            RowKind::Difference => DIFFERENCE,
            RowKind::Product => PRODUCT,
            RowKind::Minus => MINUS,
            RowKind::LiteralPower => LITERAL_POWER,
            RowKind::Raise => RAISE,
        }
    }
}

impl TryFrom<u64> for RowKind {
    type Error = NoKind;

    ghost try_from_gives = { ReadsKind };

    fn try_from(number: u64) -> Result<Self, NoKind> {
        match number {
            CONSTANT => Ok(RowKind::Constant),
            SUM_CHAIN => Ok(RowKind::SumChain),
            PRODUCT_CHAIN => Ok(RowKind::ProductChain),
            SUM => Ok(RowKind::Sum),
            DIFFERENCE => Ok(RowKind::Difference),
            PRODUCT => Ok(RowKind::Product),
            MINUS => Ok(RowKind::Minus),
            LITERAL_POWER => Ok(RowKind::LiteralPower),
            RAISE => Ok(RowKind::Raise),
            _ => Err(NoKind),
        }
    }
}

// A constant or a chain; + - *; minus; a literal power; a raise.
const LEAF: Kind = Kind {
    cost: 0,
    operands: 0,
};

const OF_TWO: Kind = Kind {
    cost: 1,
    operands: 2,
};

const OF_ONE: Kind = Kind {
    cost: 1,
    operands: 1,
};

const BY_ITS_EXPONENT: Kind = Kind {
    cost: 0,
    operands: 1,
};

const RAISING: Kind = Kind {
    cost: 128,
    operands: 2,
};

const KINDS: [Kind; 9] = [
    LEAF,
    LEAF,
    LEAF,
    OF_TWO,
    OF_TWO,
    OF_TWO,
    OF_ONE,
    BY_ITS_EXPONENT,
    RAISING,
];

pub fn facts(kind: RowKind) -> Kind
    ensures { result ≡ kind_facts (kind_number kind) }
{
    KINDS[kind as usize]
}

// The operand rows of a row of this kind; none of what is no kind.
// Kept: (a) any number may be asked, here and of `is_chain`: no parameter of a public function narrows.
pub fn operand_count(kind: u64) -> u64
    ensures { result ≡ operand_count kind }
{
    match RowKind::try_from(kind) {
        Ok(known) => facts(known).operands,
        Err(NoKind) => 0,
    }
}

pub fn is_chain(kind: u64) -> bool
    ensures { result ≡ is_chain kind }
{
    kind == SUM_CHAIN || kind == PRODUCT_CHAIN
}
