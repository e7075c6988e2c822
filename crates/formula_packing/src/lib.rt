// What a reader found as one word, and back: the word travels in a register where the struct would travel over the stack.
// Kept: packed by hand, since a C call has 8 KiB of stack: a struct as the answer of the reader that calls itself takes 48 bytes more of it for each
// open bracket (docs/CRAFT.md).
#![tactic(auto)]

ghost use Rattle.std.specs.Prelude.{◌≡◌, ◌<◌, unwrap_or};
ghost use Rattle.formula_scan.specs.Fields.{as_left, as_found};
ghost use Rattle.formula_scan.specs.Readers.{fault_places, waiting};
ghost use Rattle.formula_scan.specs.Packing.{left_of, unpacked, Packable, Tells};

use formula_scan::{LeftOperand, PLACES, Parsed};

// Above the code of any fault.
const FAULT_CODES: u64 = 32768;

// Above what three flags make.
const FLAGS: u64 = 8;

// Above what two flags make, and above any sign.
const LEFT_FLAGS: u64 = 4;

const SIGNS: u64 = 256;

// The word of what a reader answers.
pub fn packed(found: Result<Parsed, usize>) -> u64
    requires { Packable (as_found found) }
    ensures { unpacked result ≡ as_found found }
{
    match found {
        Ok(parsed) => {
            let flags = 1 + 2 * u64::from(parsed.variable) + 4 * u64::from(parsed.odd);
            let counted = parsed.nodes as u64 * FAULT_CODES + parsed.fault;
            let placed = counted * PLACES + parsed.at as u64;
            placed * FLAGS + flags
        }
        Err(at) => at as u64 * FLAGS,
    }
}

// The word of what waits on the left of a sign.
pub fn held(first: usize, sign: Option<u8>, parsed: Parsed) -> u64
    requires first_lt_fault_places { first < fault_places }
    requires odd_bound { parsed.odd < 2 }
    ensures { left_of result ≡ waiting first (unwrap_or sign 0) parsed.variable parsed.odd }
{
    let flags = 2 * u64::from(parsed.variable) + u64::from(parsed.odd);
    let signed = first as u64 * SIGNS + u64::from(sign.unwrap_or(0));
    signed * LEFT_FLAGS + flags
}

// What waits on the left, from its word.
pub fn left_of(word: u64) -> LeftOperand
    ensures { as_left result ≡ left_of word }
{
    let signed = word / LEFT_FLAGS;
    let sign = (signed % SIGNS) as u8;
    LeftOperand {
        first: (signed / SIGNS) as usize,
        sign: (sign != 0).then_some(sign),
        variable: word / 2 % 2 == 1,
        odd: (word % 2) as u8,
    }
}

// What a reader answers, from its word.
pub fn unpacked(word: u64) -> Result<Parsed, usize>
    ensures { Tells (unpacked word) result }
{
    let placed = word / FLAGS;
    let at = (placed % PLACES) as usize;
    if word % 2 == 0 {
        return Err(at);
    }
    let counted = placed / PLACES;
    Ok(Parsed {
        variable: word / 2 % 2 == 1,
        odd: (word / 4 % 2) as u8,
        at,
        nodes: (counted / FAULT_CODES) as usize,
        fault: counted % FAULT_CODES,
    })
}
