// Bytes and numbers of a text: a byte at a place, and the decimal number that begins there, of any length, without overflow.
// What stands round a number is for `formula_readers`.
#![tactic(auto)]

ghost use Rattle.std.specs.Prelude.{◌≡◌, ◌&&◌, ◌+◌, ◌^◌, ◌<◌, leb, get_or};
ghost use Rattle.formula.specs.Bytes.{Digit};
ghost use Rattle.formula_scan.specs.Fields.{as_numeral};
ghost use Rattle.formula_scan.specs.Readers.{NumberRead, Pushed};
ghost use Rattle.formula_digits.specs.Longer.{longer_value};

use formula_scan::Decimal;

// The byte at a place, or 0 past the end, which no formula has.
pub fn byte_at(text: &[u8], at: usize) -> u8
    ensures { result ≡ get_or text.now at 0 }
{
    text.get(at).copied().unwrap_or(0)
}

pub fn is_digit(byte: u8) -> bool
    ensures { result ≡ (leb 48 byte && leb byte 57) }
{
    byte.is_ascii_digit()
}

// A value with one more digit at its end, if it fits a word. A value that is over stays over.
fn longer(value: Option<u64>, digit: u64) -> Option<u64>
    ensures { result ≡ longer_value value digit }
{
    value?.checked_mul(10)?.checked_add(digit)
}

// The number with one more digit at its end.
fn pushed(number: Decimal, digit: u64) -> Decimal
    requires digit_bound { digit < 10 }
    requires at_bound { number.at < 2 ^ 63 }
    ensures { Pushed 64 (as_numeral number) digit (as_numeral result) }
{
    Decimal {
        at: number.at + 1,
        value: longer(number.value, digit),
        odd: (digit % 2) as u8,
    }
}

// The number that begins with the digit at a place: 0 alone, or all digits that follow.
#[tactic(auto, using(formula_scan::proofs::Readings::number_nought))]
pub fn read_number(text: &[u8], at: usize) -> Decimal
    requires { Digit (get_or text.now at 0) }
    ensures { NumberRead 64 text.now at (as_numeral result) }
{
    let digit = digit_of(byte_at(text, at));
    let mut number = Decimal {
        at: at + 1,
        value: Some(digit),
        odd: (digit % 2) as u8,
    };
    if digit == 0 {
        return number;
    }
    for &byte in &text[at + 1..] {
        if !is_digit(byte) {
            return number;
        }
        number = pushed(number, digit_of(byte));
    }
    number
}

// What a digit counts.
fn digit_of(byte: u8) -> u64
    requires { Digit byte }
    ensures { result + 48 ≡ byte }
{
    (byte - b'0') as u64
}
