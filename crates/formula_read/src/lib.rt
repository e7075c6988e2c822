// The formula reader: a text to its tree in postfix order, by document 01's grammar and limits, or the refusal's number and place.
// The bracket count is in `depth`, the readers of the grammar in `formula_readers`, a whole text in `formula_cursor`; what a formula folds to lives above.
#![tactic(auto)]

mod depth;

ghost use Rattle.std.specs.Prelude.{◌≡◌, cond, ◌/◌, ◌%◌, ◌<◌, ltb, length};
ghost use Rattle.formula.specs.Tree.{Tree};
ghost use Rattle.formula.specs.Words.{most_nodes};
ghost use Rattle.formula.specs.Answer.{as_read_answer};
ghost use Rattle.formula.specs.Refusals.{Accepted, Reading};
ghost use Rattle.formula_scan.specs.Readers.{fault_places, fault_code, no_fault, noted_refusal, spanned_tree, spanned_words, over_words, ReadOver, Judged};

use formula::{LONGEST_TEXT, MOST_NODES, Refusal, TREE_WORDS};
use formula_nodes::faults;
use formula_scan::{PLACES, SPANNED_WORDS};

// The words that a tree with spans takes: the node count, then four words a node.
pub const SPANNED_TREE_WORDS: usize = 1 + SPANNED_WORDS;

// Refusal 7 for more nodes than a tree holds.
fn nodes_fault(nodes: usize) -> u64
    ensures { result ≡ cond (ltb most_nodes nodes) (fault_code 7 0) no_fault }
{
    if MOST_NODES < nodes {
        return faults::fault(Refusal::TooManyNodes);
    }
    faults::NO_FAULT
}

// The refusal, of 5 to 8, that a code stands for, or none.
fn noted(code: u64) -> Result<(), Refusal>
    ensures { result ≡ noted_refusal (code / fault_places) (code % fault_places) }
{
    let place = code % PLACES;
    match code / PLACES {
        5 => Err(Refusal::NumberTooLarge(place)),
        6 => Err(Refusal::ExponentTooLarge(place)),
        7 => Err(Refusal::TooManyNodes),
        8 => Err(Refusal::BaseNotOdd(place)),
        _ => Ok(()),
    }
}

// Refusals 2 to 8 of a text, or none. No tree is written.
fn judged(text: &[u8]) -> Result<(), Refusal>
    ensures { Judged 64 text.now (as_read_answer result) }
{
    if LONGEST_TEXT < text.len() {
        return Err(Refusal::TextTooLong);
    }
    if let Some(place) = depth::deep_place(text) {
        return Err(Refusal::BracketsTooDeep(place as u64));
    }
    let whole = match formula_cursor::scan_whole(text) {
        Ok(whole) => whole,
        Err(place) => return Err(Refusal::NotAFormula(place as u64)),
    };
    noted(whole.fault.min(nodes_fault(whole.nodes)))
}

// The words of an accepted text's tree, over all of the lent words.
fn write(text: &[u8], tree: &mut [u64])
    requires tree_nonzero { 0 < length tree.old }
    requires text_len_bound { length text.now < fault_places }
    ensures { (t : Tree) → Accepted 64 text.now t → tree.new ≡ over_words (length tree.old) t }
{
    word::clear(tree);
    let end = tree.len();
    if let Ok(whole) = formula_cursor::read_whole(text, &mut tree[1..end]) {
        tree[0] = whole.nodes as u64;
    }
}

// Reads a formula over all of the lent words: the node count, then the nodes as the words behind it have room for them. A refusal alters no word.
fn read_over(text: &[u8], tree: &mut [u64]) -> Result<(), Refusal>
    requires { 0 < length tree.old }
    ensures { ReadOver (over_words (length tree.old)) text.now tree.old (as_read_answer result) tree.new }
{
    judged(text)?;
    write(text, tree);
    Ok(())
}

// Reads a formula into a lent tree of 257 words. A refusal alters no word; words past the 257 stay.
pub fn read(text: &[u8], tree: &mut [u64]) -> Result<(), Refusal>
    ensures { Reading 64 text.now tree.old (as_read_answer result) tree.new }
{
    if tree.len() < TREE_WORDS {
        return Err(Refusal::BufferTooShort);
    }
    read_over(text, &mut tree[0..TREE_WORDS])
}

// Reads a formula into 513 lent words: the node count, then four words a node, its span behind kind and word. A refusal alters no word.
pub fn read_spanned(text: &[u8], tree: &mut [u64]) -> Result<(), Refusal>
    requires { length tree.old ≡ spanned_tree }
    ensures { ReadOver spanned_words text.now tree.old (as_read_answer result) tree.new }
{
    read_over(text, tree)
}
