// A formula's text and the place reached in it, as one small value above the readers, which take a slice and a number.
// The grammar is read in `formula_readers`; what a text is refused for is judged in `formula_read`.
#![tactic(auto)]

ghost use Rattle.std.specs.Prelude.{◌≡◌, [], ◌≤◌, ◌<◌, length};
ghost use Rattle.formula_scan.specs.Fields.{as_found};
ghost use Rattle.formula_scan.specs.Readers.{fault_places};
ghost use Rattle.formula_cursor.specs.Whole.{Scanned, if_ended, WholeRead};

use formula_nodes::faults;
use formula_packing::unpacked;
use formula_scan::Parsed;

// A formula's text and the place reached in it.
#[derive(Clone, Copy)]
pub struct Cursor<'a> {
    pub text: &'a [u8],
    pub place: usize,
}

// The sum that begins at a place, its nodes written into the lent tree.
fn sum_from(text: &[u8], place: usize, tree: &mut [u64]) -> Result<Parsed, usize>
    requires { (place ≤ length text.now) × (length text.now < fault_places) }
    ensures { Scanned 64 text.now place tree.old (as_found result) tree.new }
{
    unpacked(formula_readers::read_sum(text, tree, place, 0, faults::NO_FAULT))
}

// What was read of a sum, if no byte is left from a place on; else no formula goes on past that place.
fn if_ended(text: &[u8], place: usize, sum: Result<Parsed, usize>) -> Result<Parsed, usize>
    ensures { as_found result ≡ if_ended text.now place (as_found sum) }
{
    if place < text.len() {
        return Err(place);
    }
    sum.or(Err(place))
}

// A cursor at the start of a text.
pub fn at_start<'a>(text: &'a [u8]) -> Cursor<'a>
    ensures { (result.text ≡ text.entry) × (result.place ≡ 0) }
{
    Cursor { text, place: 0 }
}

// The same text, at the place that a sum reached.
pub fn past<'a>(cursor: Cursor<'a>, sum: Result<Parsed, usize>) -> Cursor<'a>
    ensures { (result.text ≡ cursor.entry.text) × (result.place ≡ (as_found sum).at) }
{
    let place = match sum {
        Ok(parsed) => parsed.at,
        Err(at) => at,
    };
    Cursor {
        text: cursor.text,
        place,
    }
}

// The sum that begins at the cursor's place, its nodes written into the lent tree.
pub fn read_sum<'a, 'b>(cursor: Cursor<'a>, tree: &'b mut [u64]) -> Result<Parsed, usize>
    requires { (cursor.place ≤ length cursor.text.now) × (length cursor.text.now < fault_places) }
    ensures { Scanned 64 cursor.entry.text.now cursor.entry.place tree.old (as_found result) tree.new }
{
    sum_from(cursor.text, cursor.place, tree)
}

// What was read of a sum, if the cursor is at the text's end; else no formula goes on past the cursor's place.
pub fn if_at_end<'a>(cursor: Cursor<'a>, sum: Result<Parsed, usize>) -> Result<Parsed, usize>
    ensures { as_found result ≡ if_ended cursor.entry.text.now cursor.entry.place (as_found sum) }
{
    if_ended(cursor.text, cursor.place, sum)
}

// A whole text, read by a cursor from its start to its end, its nodes written into the lent tree.
pub fn read_whole(text: &[u8], tree: &mut [u64]) -> Result<Parsed, usize>
    requires { length text.now < fault_places }
    ensures { WholeRead 64 text.now tree.old (as_found result) tree.new }
{
    let start = at_start(text);
    let sum = read_sum(start, tree);
    if_at_end(past(start, sum), sum)
}

// The same with no tree to write into.
pub fn scan_whole(text: &[u8]) -> Result<Parsed, usize>
    requires { length text.now < fault_places }
    ensures { WholeRead 64 text.now [] (as_found result) [] }
{
    read_whole(text, &mut [])
}
