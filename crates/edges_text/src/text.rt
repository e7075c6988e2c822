// Parts of a text around a mark, and decimal words.
// What a part stands for is up to the modules above.
ghost use Rattle.std.specs.Prelude.{◌≡◌, ◌==◌, ◌≤◌, length};
ghost use Rattle.std.specs.List.{position};
ghost use Rattle.std.specs.Io.BufRead.{strip_last};
ghost use Rattle.table.specs.Parts.{before, after};

// Where the first mark stands.
fn place(text: &[u8], mark: u8) -> Option<usize>
    ensures { result ≡ position (λ b. b == mark) text.now }
{
    text.iter().position(|byte| *byte == mark)
}

// What stands before the first mark, or all of the text.
pub fn before(text: &[u8], mark: u8) -> &[u8]
    ensures { result.now ≡ before mark text.now }
{
    match place(text, mark) {
        Some(end) => &text[..end],
        None => text,
    }
}

// What stands after the first mark.
pub fn after(text: &[u8], mark: u8) -> &[u8]
    ensures after_mark { result.now ≡ after mark text.now }
    ensures shorter { length result.now ≤ length text.now }
{
    match place(text, mark) {
        Some(end) => &text[end + 1..],
        None => &[],
    }
}

// A part that a text is split into, without the mark that ends it.
pub fn unmarked(part: &[u8], mark: u8) -> &[u8]
    ensures { result.now ≡ strip_last mark part.now }
{
    match part {
        [before @ .., last] if *last == mark => before,
        _ => part,
    }
}

// The word of the digits, modulo 2^64, other bytes being passed over; its negative after a minus sign, and r less it after a ~.
pub fn number(text: &[u8], r: u64) -> u64 {
    let mut value = 0u64;
    for byte in text {
        if byte.is_ascii_digit() {
            value = value.wrapping_mul(10).wrapping_add(u64::from(*byte - b'0'));
        }
    }
    match text {
        [b'-', ..] => value.wrapping_neg(),
        [b'~', ..] => r.wrapping_sub(value),
        _ => value,
    }
}
