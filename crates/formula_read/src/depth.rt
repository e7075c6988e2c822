// How deep the round brackets of a text go, in the grammar or not: opened ones, closed ones subtracted.
// What stands between the brackets is for `formula_readers`.
ghost use Rattle.std.specs.Prelude.{◌<◌, length, unwrap_or, IfSome};
ghost use Rattle.formula_scan.specs.Readers.{DeepAt};

const DEEPEST: usize = 32;

// The place of the first ( that opens more than 32 brackets, if one does.
pub fn deep_place(text: &[u8]) -> Option<usize>
    ensures first { DeepAt text.now (unwrap_or result (length text.now)) }
    ensures inside { IfSome result (λ place. place < length text.now) }
{
    let mut opened = 0;
    let mut closed = 0;
    for (place, &byte) in text.iter().enumerate() {
        opened += usize::from(byte == b'(');
        closed += usize::from(byte == b')');
        if DEEPEST + closed < opened {
            return Some(place);
        }
    }
    None
}
