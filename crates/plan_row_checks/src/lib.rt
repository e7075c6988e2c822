// What is asked of one row of a plan: by the table of row kinds its columns, its unused words and the constant that a raise stands on; and its span.
// The table itself is in `plan_rows::kinds`; a plan's rows together are checked in `plan_sound`.
#![tactic(auto)]

ghost use Rattle.std.specs.Prelude.{◌≡◌, ◌≤◌, length};
ghost use Rattle.plan.specs.Measures.{row_length, most_rows};
ghost use Rattle.plan.specs.Row.{sound_a, sound_b, elements_used, all_zero, keeps_table, odd_constant, sound_span};
ghost use Rattle.plan_rows.specs.Kinds.{kind_number};

use plan::{ELEMENT_COUNT, ELEMENTS_START, LONGEST_TEXT, SPAN_START};
use plan_rows::kinds;
use plan_rows::kinds::{CONSTANT, RowKind};

pub fn all_zero(words: &[u64]) -> bool
    ensures { result ≡ all_zero words.now }
{
    words.iter().all(|word| *word == 0)
}

// The column a of row r.
fn a_is_sound(kind: RowKind, a: u64, r: u64) -> bool
    ensures { result ≡ sound_a r (kind_number kind) a }
{
    match kind {
        RowKind::SumChain | RowKind::ProductChain => (1..=16).contains(&a),
        _ if 0 < kinds::facts(kind).operands => a < r,
        _ => a == 0,
    }
}

// The column b of row r.
fn b_is_sound(kind: RowKind, b: u64, r: u64) -> bool
    ensures { result ≡ sound_b r (kind_number kind) b }
{
    match kind {
        RowKind::LiteralPower => (2..=64).contains(&b),
        _ if kinds::facts(kind).operands == 2 => b < r,
        _ => b == 0,
    }
}

fn elements_used(kind: RowKind, a: u64) -> usize
    requires { a ≤ most_rows }
    ensures { result ≡ elements_used (kind_number kind) a }
{
    match kind {
        RowKind::Constant => 1,
        RowKind::SumChain | RowKind::ProductChain => a as usize + 1,
        _ => 0,
    }
}

// Everything that the table asks of row r, but for the base of a raise.
pub fn keeps_table(row: &[u64], r: u64) -> bool
    requires row_len { length row.now ≡ row_length }
    requires r_le_most_rows { r ≤ most_rows }
    ensures { result ≡ keeps_table r row.now }
{
    let Ok(kind) = RowKind::try_from(row[0]) else {
        return false;
    };
    let a = row[1];
    if !a_is_sound(kind, a, r) || !b_is_sound(kind, row[2], r) {
        return false;
    }
    let unused = ELEMENTS_START + elements_used(kind, a);
    all_zero(&row[unused..ELEMENTS_START + ELEMENT_COUNT])
}

pub fn odd_constant(row: &[u64]) -> bool
    requires { length row.now ≡ row_length }
    ensures { result ≡ odd_constant row.now }
{
    row[0] == CONSTANT && row[ELEMENTS_START] % 2 == 1
}

// The row came from some text, and that ends within the longest one.
pub fn span_is_sound(row: &[u64]) -> bool
    requires { length row.now ≡ row_length }
    ensures { result ≡ sound_span row.now }
{
    let end = row[SPAN_START + 1];
    row[SPAN_START] < end && end <= LONGEST_TEXT
}
