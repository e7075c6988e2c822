// Refusals as the readers note them: one code for number and place, so that the least code is the refusal. Refusals 5, 6 and 8 are found here.
// Refusals 2, 3, 4 and 7 are judged in `formula_read`.
ghost use Rattle.std.specs.Prelude.{◌≡◌, cond, ◌^◌, ◌<◌, eqb, leb};
ghost use Rattle.formula.specs.Answer.{refusal_number, refusal_place};
ghost use Rattle.formula_scan.specs.Fields.{as_numeral};
ghost use Rattle.formula_scan.specs.Readers.{no_fault, fault_code, base_fault};

use formula::Refusal;
use formula_scan::{Decimal, PLACES};

// No fault: above the code of any.
pub const NO_FAULT: u64 = 9 * PLACES;

// The largest literal exponent.
const MOST_EXPONENT: u64 = 64;

// The code of a refusal.
pub fn fault(refusal: Refusal) -> u64
    requires { refusal_place refusal < 2 ^ 63 }
    ensures { result ≡ fault_code (refusal_number refusal) (refusal_place refusal) }
{
    refusal.number() * PLACES + refusal.place()
}

// Refusal 5 for a number that is over.
pub fn number_fault(number: Decimal, place: usize) -> u64
    requires { place < 2 ^ 63 }
    ensures { result ≡ cond (as_numeral number).over (fault_code 5 place) no_fault }
{
    match number.value {
        Some(_) => NO_FAULT,
        None => fault(Refusal::NumberTooLarge(place as u64)),
    }
}

// Refusal 5 or 6 for a literal exponent.
pub fn literal_fault(number: Decimal, place: usize) -> u64
    requires { place < 2 ^ 63 }
    ensures { result ≡ cond (as_numeral number).over (fault_code 5 place) (cond (leb (as_numeral number).value 64) no_fault (fault_code 6 place)) }
{
    match number.value {
        Some(exponent) if MOST_EXPONENT < exponent => {
            fault(Refusal::ExponentTooLarge(place as u64))
        }
        _ => number_fault(number, place),
    }
}

// Refusal 8 for a raise over a base that holds x or is even.
pub fn base_fault(variable: bool, odd: u8, place: usize) -> u64
    requires { place < 2 ^ 63 }
    ensures { result ≡ base_fault variable odd place }
{
    if variable || odd == 0 {
        return fault(Refusal::BaseNotOdd(place as u64));
    }
    NO_FAULT
}

// The oddness of a literal power: 1 to the 0, else the base's.
pub fn literal_odd(odd: u8, number: Decimal) -> u8
    ensures { result ≡ cond (as_numeral number).over odd (cond (eqb (as_numeral number).value 0) 1 odd) }
{
    match number.value {
        Some(0) => 1,
        _ => odd,
    }
}
