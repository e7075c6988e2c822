// What the folding rules see of an operand's row: its kind, the length of its chain, trimmed where it stands, and its first element.
// What they make of it is in `reason_numbers`.
ghost use Rattle.std.specs.Prelude.{◌≡◌, true, ◌-◌, ◌≤◌, ◌<◌, length};
ghost use Rattle.plan.specs.Measures.{element_count, row_length};
ghost use Rattle.plan.specs.Row.{kind, word_a, is_chain};
ghost use Rattle.plan.specs.Points.{chain_of};
ghost use Rattle.chain.specs.Chain.{trimmed};
ghost use Rattle.reason.proofs.TreeLaws.{chain_seen, seen_in};

use plan::ELEMENTS_START;
use plan_rows::kinds::{CONSTANT, PRODUCT_CHAIN, SUM_CHAIN};
use reason::Seen;

// The length of the chain in a row, trailing units dropped.
fn trimmed_length(row: &[u64], unit: u64) -> usize
    requires row_len { length row.now ≡ row_length }
    requires row_bound { word_a row.now < element_count }
    ensures value { result ≡ length (trimmed unit (chain_of row.now)) - 1 }
    ensures upper_bound { result ≤ 16 }
{
    let last = ELEMENTS_START + row[1] as usize;
    chain_arrays::trimmed_length(&row[ELEMENTS_START..=last], unit)
}

// A chain of length 0 is a constant.
fn chain(kind: u64, length: usize, first: u64) -> Seen
    ensures value { result ≡ chain_seen kind length first }
    ensures length_in_bounds { result.length ≤ length }
{
    Seen {
        kind: if length == 0 { CONSTANT } else { kind },
        length,
        first,
    }
}

// "a product chain with first element 0 counts as a constant".
pub fn seen(row: &[u64]) -> Seen
    requires row_len { length row.now ≡ row_length }
    requires row_bound { is_chain (kind row.now) ≡ true → word_a row.now < element_count }
    ensures value { result ≡ seen_in row.now }
    ensures length_bound { result.length ≤ 16 }
{
    let first = row[ELEMENTS_START];
    match row[0] {
        CONSTANT => chain(CONSTANT, 0, first),
        SUM_CHAIN => chain(SUM_CHAIN, trimmed_length(row, 0), first),
        PRODUCT_CHAIN if first == 0 => chain(PRODUCT_CHAIN, 0, 0),
        PRODUCT_CHAIN => chain(PRODUCT_CHAIN, trimmed_length(row, 1), first),
        kind => Seen {
            kind,
            length: 0,
            first: 0,
        },
    }
}
