// What the readers note of a tree: its nodes in postfix order, whether x stands in it, its oddness and its least fault.
// Refusals are in `faults`; the bytes of the text are read in `formula_digits` and `formula_readers`.
#![tactic(auto)]

pub mod faults;

ghost use Rattle.std.specs.Prelude.{◌≡◌, false, cond, ◌||◌, ◌+◌, ◌-◌, ◌^◌, ◌≤◌, ◌<◌, eqb};
ghost use Rattle.formula.specs.Bytes.{plus_sign};
ghost use Rattle.formula.specs.Tree.{span};
ghost use Rattle.formula.specs.Words.{kind_number};
ghost use Rattle.formula_scan.specs.Fields.{as_parsed, as_left, as_numeral};
ghost use Rattle.formula_scan.specs.Readers.{put, wrote_minus, finding, with_node, both_found, literal_found, product_found, sum_found};

use formula::{MOST_NODES, NodeKind};
use formula_scan::{Decimal, LeftOperand, PLAIN_WORDS, Parsed, SPANNED_WORDS};

// Puts node n into the lent tree: two words for each node, or four with its span, where each has room for them.
fn put(tree: &mut [u64], n: usize, kind: u64, word: u64, first: usize, end: usize)
    ensures { tree.new ≡ put tree.old n kind word (span first end) }
{
    if MOST_NODES <= n {
        return;
    }
    if tree.len() < PLAIN_WORDS {
        return;
    }
    if tree.len() < SPANNED_WORDS {
        let start = 2 * n;
        tree[start] = kind;
        tree[start + 1] = word;
        return;
    }
    let start = 4 * n;
    tree[start] = kind;
    tree[start + 1] = word;
    tree[start + 2] = first as u64;
    tree[start + 3] = end as u64;
}

// Puts a node whose text begins at `first` behind the nodes so far and counts it. The rest that is noted of its tree is given.
// Kept: any number is a kind here, since a parameter of a call between crates keeps all its values; the readers pass a NodeKind's number.
pub fn noted(tree: &mut [u64], kind: u64, word: u64, first: usize, parsed: Parsed) -> Parsed
    requires { parsed.nodes < 2 ^ 63 }
    ensures value { as_parsed result ≡ with_node (as_parsed parsed) }
    ensures tree_after { tree.new ≡ put tree.old parsed.nodes kind word (span first parsed.at) }
{
    put(tree, parsed.nodes, kind, word, first, parsed.at);
    Parsed {
        nodes: parsed.nodes + 1,
        ..parsed
    }
}

// What is noted of two operands, one after the other: whether x stands in the left one, the right one, and the oddness of the whole.
pub fn both(variable: bool, right: Parsed, odd: u8) -> Parsed
    ensures { as_parsed result ≡ both_found variable (as_parsed right) odd }
{
    Parsed {
        variable: variable || right.variable,
        odd,
        ..right
    }
}

// A minus node for each sign from place `at` on, side by side before the power's first byte, the last one first.
pub fn negated(tree: &mut [u64], at: usize, first: usize, power: Parsed) -> Parsed
    requires first_bound { power.nodes + first < 2 ^ 63 }
    requires at_le_first { at ≤ first }
    ensures value { as_parsed result ≡ finding power.variable power.odd power.at (power.nodes + (first - at)) power.fault }
    ensures tree_after { tree.new ≡ wrote_minus (first - at) first power.at power.nodes tree.old }
{
    let mut negative = power;
    for place in (at..first).rev() {
        negative = noted(tree, u64::from(NodeKind::Minus), 0, place, negative);
    }
    negative
}

// A literal power of what was read. An exponent that is over stands in the tree as the largest word.
pub fn literal_power(tree: &mut [u64], first: usize, base: Parsed, number: Decimal) -> Parsed
    requires nodes_bound { base.nodes < 2 ^ 63 }
    requires at_bound { base.at + 1 < 2 ^ 63 }
    ensures value { as_parsed result ≡ literal_found (as_parsed base) (as_numeral number) }
    ensures tree_after { tree.new ≡ put tree.old base.nodes 7 (as_numeral number).value (span first number.at) }
{
    let whole = Parsed {
        odd: faults::literal_odd(base.odd, number),
        at: number.at,
        fault: base.fault.min(faults::literal_fault(number, base.at + 1)),
        ..base
    };
    let exponent = number.value.unwrap_or(u64::MAX);
    noted(
        tree,
        u64::from(NodeKind::LiteralPower),
        exponent,
        first,
        whole,
    )
}

// Nothing read yet.
pub fn starting(at: usize, nodes: usize, fault: u64) -> Parsed
    ensures { as_parsed result ≡ finding false 0 at nodes fault }
{
    Parsed {
        variable: false,
        odd: 0,
        at,
        nodes,
        fault,
    }
}

// The same, past the byte behind it: one that joins it to what follows, or the ) of its brackets.
pub fn beyond(parsed: Parsed) -> Parsed
    requires { parsed.at < 2 ^ 63 }
    ensures { as_parsed result ≡ finding parsed.variable parsed.odd (parsed.at + 1) parsed.nodes parsed.fault }
{
    Parsed {
        at: parsed.at + 1,
        ..parsed
    }
}

// Left and right joined by a node of that kind and oddness, or right alone where there is no sign.
fn joined(tree: &mut [u64], left: LeftOperand, right: Parsed, kind: NodeKind, odd: u8) -> Parsed
    requires { right.nodes < 2 ^ 63 }
    ensures value { as_parsed result ≡ cond (eqb (as_left left).sign 0) (as_parsed right) (with_node (both_found left.variable (as_parsed right) odd)) }
    ensures tree_after { tree.new ≡ cond (eqb (as_left left).sign 0) tree.old (put tree.old right.nodes (kind_number kind) 0 (span left.first right.at)) }
{
    if left.sign.is_none() {
        return right;
    }
    noted(
        tree,
        u64::from(kind),
        0,
        left.first,
        both(left.variable, right, odd),
    )
}

// The product of left and right, or right alone where there is no sign.
pub fn joined_product(tree: &mut [u64], left: LeftOperand, right: Parsed) -> Parsed
    requires nodes_bound { right.nodes < 2 ^ 63 }
    requires odd_bound { left.odd < 2 }
    requires odd_bound_2 { right.odd < 2 }
    ensures value { as_parsed result ≡ cond (eqb (as_left left).sign 0) (as_parsed right) (product_found left.variable left.odd (as_parsed right)) }
    ensures tree_after { tree.new ≡ cond (eqb (as_left left).sign 0) tree.old (put tree.old right.nodes 5 0 (span left.first right.at)) }
{
    joined(tree, left, right, NodeKind::Product, left.odd * right.odd)
}

// The sum or difference of left and right, by the sign between them, or right alone where there is none.
pub fn joined_sum(tree: &mut [u64], left: LeftOperand, right: Parsed) -> Parsed
    requires nodes_bound { right.nodes < 2 ^ 63 }
    requires odd_bound { left.odd < 2 }
    requires odd_bound_2 { right.odd < 2 }
    ensures value { as_parsed result ≡ cond (eqb (as_left left).sign 0) (as_parsed right) (sum_found left.variable left.odd (as_parsed right)) }
    ensures tree_after { tree.new ≡ cond (eqb (as_left left).sign 0) tree.old (put tree.old right.nodes (cond (eqb (as_left left).sign plus_sign) 3 4) 0 (span left.first right.at)) }
{
    let kind = if left.sign == Some(b'+') {
        NodeKind::Sum
    } else {
        NodeKind::Difference
    };
    joined(tree, left, right, kind, (left.odd + right.odd) % 2)
}
