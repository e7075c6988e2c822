// Lent words: reading and putting them, lists of words parted by commas, and what is tested and summed of them.
// What the words stand for is up to the modules above.
ghost use Rattle.std.specs.Prelude.{◌≡◌, slice_index};

use crate::text;

// Stands in every word past the listed ones: no call on chains may read it, and a filling takes it for its budget.
pub const UNREAD: u64 = 999;

// The word at a place, or 0 past the end.
pub fn word_at(words: &[u64], at: usize) -> u64
    ensures { result ≡ slice_index words.now at }
{
    words.get(at).copied().unwrap_or(0)
}

// Puts a word, if there is such a place.
pub fn put(words: &mut [u64], at: usize, word: u64) {
    if let Some(place) = words.get_mut(at) {
        *place = word;
    }
}

// How many words a list has.
pub fn count(list: &[u8]) -> usize {
    list.split_inclusive(|byte| *byte == b',').count()
}

// Puts the words of a list from a place on, as far as there are places. ~1 stands for r - 1.
pub fn put_list(list: &[u8], r: u64, words: &mut [u64], start: usize) {
    let parts = list.split_inclusive(|byte| *byte == b',');
    for (i, part) in parts.enumerate() {
        let word = text::number(text::unmarked(part, b','), r);
        put(words, start.wrapping_add(i), word);
    }
}

// The first words of a list.
pub fn list<const N: usize>(text: &[u8]) -> [u64; N] {
    let mut words = [UNREAD; N];
    put_list(text, 0, &mut words, 0);
    words
}

// Puts a word of its own in each place.
pub fn paint(words: &mut [u64]) {
    for (word, painted) in words.iter_mut().zip(UNREAD..) {
        *word = painted;
    }
}

// Whether each word from a place on is as `paint` puts it.
pub fn is_painted(words: &[u64], from: usize) -> bool {
    words
        .iter()
        .zip(UNREAD..)
        .skip(from)
        .all(|(word, painted)| *word == painted)
}

// The sum of the words, each times its place counted from 1.
pub fn checksum<T: Copy + Into<u64>>(words: &[T]) -> u64 {
    let mut sum = 0u64;
    for (place, word) in (1u64..).zip(words) {
        let word: u64 = (*word).into();
        sum = sum.wrapping_add(place.wrapping_mul(word));
    }
    sum
}
