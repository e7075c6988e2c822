// The readers of the grammar: sum, product, factor, power and atom call each other in a cycle on the text and a place.
// Repetition is a loop, so the calls go deeper through brackets only. Nodes and faults are noted by `formula_nodes`; what they decide is judged in `formula_read`.
#![tactic(auto)]

ghost use Rattle.std.specs.Prelude.{◌≡◌, ◌||◌, ◌<◌, ◌≤◌, eqb, length, get_or};
ghost use Rattle.formula.specs.Bytes.{plus_sign, minus_sign};
ghost use Rattle.formula_scan.specs.Fields.{as_found};
ghost use Rattle.formula_scan.specs.Packing.{unpacked, Packs};
ghost use Rattle.formula_scan.specs.Readers.{MinusSigns, SumRead, ProductRead, PowerRead, AtomRead, BracketRead};

use formula::NodeKind;
use formula_digits::{byte_at, is_digit, read_number};
use formula_nodes::{
    beyond, both, faults, joined_product, joined_sum, literal_power, negated, noted, starting,
};
use formula_packing::{held, left_of, packed, unpacked};
use formula_scan::Parsed;

// The first place from `at` on without a minus sign.
// Kept: by the place itself, since a count of the signs passed lives across the readers' call beside it, which takes 16 bytes of stack a bracket.
fn after_minus_signs(text: &[u8], at: usize) -> usize
    requires { at ≤ length text.now }
    ensures { MinusSigns text.now at result }
{
    for place in at..text.len() {
        if text[place] != b'-' {
            return place;
        }
    }
    text.len()
}

fn is_sign(byte: u8) -> bool
    ensures { result ≡ (eqb byte plus_sign || eqb byte minus_sign) }
{
    matches!(byte, b'+' | b'-')
}

// Kept: text, tree, place, nodes and fault come apart in all readers: a struct of the five would stand in memory at each of 32 brackets, where words travel in
// registers (8 KiB of stack), and FORMS.md has a slice-and-number core below the cursor.

// A sum in brackets, the ( at a place: the sum and the ) after it.
#[cycle(read_atom_read_bracket_read_factor_read_power_read_product_read_sum)]
fn read_bracket(
    text: &[u8],
    tree: &mut [u64],
    at: usize,
    nodes: usize,
    fault: u64,
) -> Result<Parsed, usize>
    requires at_in_bounds { at < length text.now }
    requires nodes_le_at { nodes ≤ at }
    requires packs { Packs text.now fault }
    ensures { BracketRead 64 text.now at nodes fault tree.old (as_found result) tree.new }
{
    let sum = unpacked(read_sum(text, tree, at + 1, nodes, fault))?;
    if byte_at(text, sum.at) != b')' {
        return Err(sum.at);
    }
    Ok(beyond(sum))
}

// An atom: a number, x, or a sum in round brackets.
#[cycle(read_atom_read_bracket_read_factor_read_power_read_product_read_sum)]
fn read_atom(
    text: &[u8],
    tree: &mut [u64],
    at: usize,
    nodes: usize,
    fault: u64,
) -> Result<Parsed, usize>
    requires at_in_bounds { at ≤ length text.now }
    requires nodes_le_at { nodes ≤ at }
    requires fact { get_or text.now at 0 ≡ minus_sign → ⊥ }
    requires packs { Packs text.now fault }
    ensures { AtomRead 64 text.now at nodes fault tree.old (as_found result) tree.new }
{
    let byte = byte_at(text, at);
    if byte == b'(' {
        return read_bracket(text, tree, at, nodes, fault);
    }
    let start = starting(at, nodes, fault);
    if byte == b'x' {
        let letter = Parsed {
            variable: true,
            at: at + 1,
            ..start
        };
        return Ok(noted(tree, u64::from(NodeKind::Variable), 0, at, letter));
    }
    if !is_digit(byte) {
        return Err(at);
    }
    let number = read_number(text, at);
    let numeral = Parsed {
        odd: number.odd,
        at: number.at,
        fault: fault.min(faults::number_fault(number, at)),
        ..start
    };
    let value = number.value.unwrap_or(u64::MAX);
    Ok(noted(tree, u64::from(NodeKind::Number), value, at, numeral))
}

// A power: an atom, perhaps followed by one ^ and an exponent, a number or a sum in round brackets.
#[cycle(read_atom_read_bracket_read_factor_read_power_read_product_read_sum)]
fn read_power(
    text: &[u8],
    tree: &mut [u64],
    at: usize,
    nodes: usize,
    fault: u64,
) -> Result<Parsed, usize>
    requires at_in_bounds { at ≤ length text.now }
    requires nodes_le_at { nodes ≤ at }
    requires fact { get_or text.now at 0 ≡ minus_sign → ⊥ }
    requires packs { Packs text.now fault }
    ensures { PowerRead 64 text.now at nodes fault tree.old (as_found result) tree.new }
{
    let base = read_atom(text, tree, at, nodes, fault)?;
    let caret = base.at;
    if byte_at(text, caret) != b'^' {
        return Ok(base);
    }
    let place = caret + 1;
    let byte = byte_at(text, place);
    if is_digit(byte) {
        let number = read_number(text, place);
        return Ok(literal_power(tree, at, base, number));
    }
    if byte != b'(' {
        return Err(place);
    }
    let least = base
        .fault
        .min(faults::base_fault(base.variable, base.odd, caret));
    let exponent = read_bracket(text, tree, place, base.nodes, least)?;
    let whole = both(base.variable, exponent, 1);
    Ok(noted(tree, u64::from(NodeKind::Raise), 0, at, whole))
}

// A factor: any number of leading minus signs, then a power.
#[cycle(read_atom_read_bracket_read_factor_read_power_read_product_read_sum)]
fn read_factor(
    text: &[u8],
    tree: &mut [u64],
    at: usize,
    nodes: usize,
    fault: u64,
) -> Result<Parsed, usize>
    requires at_in_bounds { at ≤ length text.now }
    requires nodes_le_at { nodes ≤ at }
    requires packs { Packs text.now fault }
    ensures { PowerRead 64 text.now at nodes fault tree.old (as_found result) tree.new }
{
    let first = after_minus_signs(text, at);
    let power = read_power(text, tree, first, nodes, fault)?;
    Ok(negated(tree, at, first, power))
}

// A product: factors joined by *, left to right.
#[cycle(read_atom_read_bracket_read_factor_read_power_read_product_read_sum)]
fn read_product(
    text: &[u8],
    tree: &mut [u64],
    at: usize,
    nodes: usize,
    fault: u64,
) -> Result<Parsed, usize>
    requires at_in_bounds { at ≤ length text.now }
    requires nodes_le_at { nodes ≤ at }
    requires packs { Packs text.now fault }
    ensures { ProductRead 64 text.now at nodes fault tree.old (as_found result) tree.new }
{
    let mut next = starting(at, nodes, fault);
    let mut waits = held(at, None, next);
    // Kept: how far a turn goes in the text is what the reader in it answers, which no iterator can tell.
    loop {
        let right = read_factor(text, tree, next.at, next.nodes, next.fault)?;
        let left = left_of(waits);
        let whole = joined_product(tree, left, right);
        if byte_at(text, whole.at) != b'*' {
            return Ok(whole);
        }
        next = beyond(whole);
        waits = held(left.first, Some(b'*'), next);
    }
}

// A sum: products joined by + or -, left to right. The one reader that is called inside itself, so it answers one word.
#[cycle(read_atom_read_bracket_read_factor_read_power_read_product_read_sum)]
pub fn read_sum(text: &[u8], tree: &mut [u64], at: usize, nodes: usize, fault: u64) -> u64
    requires at_in_bounds { at ≤ length text.now }
    requires nodes_le_at { nodes ≤ at }
    requires packs { Packs text.now fault }
    ensures { SumRead 64 text.now at nodes fault tree.old (unpacked result) tree.new }
{
    let mut next = starting(at, nodes, fault);
    let mut waits = held(at, None, next);
    // Kept: as in `read_product`, a turn's way in the text is the answer of the reader in it.
    loop {
        let right = match read_product(text, tree, next.at, next.nodes, next.fault) {
            Ok(right) => right,
            Err(place) => return packed(Err(place)),
        };
        let left = left_of(waits);
        let whole = joined_sum(tree, left, right);
        let sign = byte_at(text, whole.at);
        if !is_sign(sign) {
            return packed(Ok(whole));
        }
        next = beyond(whole);
        waits = held(left.first, Some(sign), next);
    }
}
