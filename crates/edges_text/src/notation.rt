// The notation in which a line writes repeats, and the bytes that it stands for.
// {3:+x} stands for +x three times and <10> for the byte 10; every other byte stands for itself.
ghost use Rattle.std.specs.Prelude.{◌≤◌, length};

use crate::text;

// Writes a byte behind those that are written so far, if there is room, and answers the new end.
fn written(byte: u8, out: &mut [u8], end: usize) -> usize
    requires { end ≤ length out.old }
    ensures { result ≤ length out.new }
{
    match out.get_mut(end) {
        Some(place) => {
            *place = byte;
            end + 1
        }
        None => end,
    }
}

// The same of a repeat, with which a text begins, as {3:+x}: as many bytes as its size and its number make, as far as there is room.
fn repeated(text: &[u8], out: &mut [u8], end: usize) -> usize
    requires { end ≤ length out.old }
    ensures { result ≤ length out.new }
{
    let times = text::number(text::before(text, b':'), 0);
    let bytes = text::after(text, b':');
    let inside = text::before(text, b'}').len();
    let size = inside.wrapping_sub(text.len() - bytes.len());
    if size == 0 {
        return end;
    }
    let total = times.wrapping_mul(size as u64) as usize;
    let stop = end.wrapping_add(total).min(out.len());
    let Some(room) = out.get_mut(end..stop) else {
        return end;
    };
    for (i, place) in room.iter_mut().enumerate() {
        *place = bytes.get(i % size).copied().unwrap_or(0);
    }
    stop
}

// Writes the bytes that the notation stands for, as far as there is room, and lends them.
pub fn expand<'a>(notation: &[u8], out: &'a mut [u8]) -> &'a mut [u8] {
    let mut end = 0;
    let mut rest = notation;
    // Kept: how long a token is shows as it is read, so no iterator of the library parts the notation in tokens.
    while let Some((first, behind)) = rest.split_first() {
        match first {
            b'{' => {
                end = repeated(rest, out, end);
                rest = text::after(behind, b'}');
            }
            b'<' => {
                let byte = text::number(text::before(rest, b'>'), 0) % 256;
                end = written(byte as u8, out, end);
                rest = text::after(behind, b'>');
            }
            _ => {
                end = written(*first, out, end);
                rest = behind;
            }
        }
    }
    &mut out[..end]
}
