// The decimal number of a field of a line, whose digits `formula_digits` reads.
// Which numbers a line holds is decided in the crates above.
ghost use Rattle.std.specs.Prelude.{◌≡◌};
ghost use Rattle.table.specs.NumberField.{as_field_number, number_up_to};

use formula_digits::{byte_at, is_digit, read_number};

// The number that a field holds, if it is a number and `most` at most.
pub fn number_up_to(field: &[u8], most: u64) -> Option<u64>
    ensures { as_field_number result ≡ number_up_to most field.now }
{
    if !is_digit(byte_at(field, 0)) {
        return None;
    }
    let number = read_number(field, 0);
    if number.at < field.len() {
        return None;
    }
    let value = number.value?;
    if most < value {
        return None;
    }
    Some(value)
}
