// Input into a lent buffer.
ghost use Rattle.std.specs.Prelude.{◌≤◌, length, IfOk};

use std::io;
use std::io::Read;

// One byte more than the input of a program may have.
pub const MOST_READ: usize = 65536;

// Reads until the buffer is full or the input ends: how many bytes came.
pub fn read_full(from: &mut impl Read, buffer: &mut [u8]) -> io::Result<usize>
    ensures { IfOk result (λ count. count ≤ length buffer.new) }
{
    let mut done = 0;
    // Kept: there is no heap: the library's `read_to_end` fills a Vec, and `read_exact` refuses an input that ends before the buffer is full.
    while done < buffer.len() {
        let got = from.read(&mut buffer[done..])?;
        if got == 0 {
            break;
        }
        done += got;
    }
    Ok(done)
}
