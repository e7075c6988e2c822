// What is printed of words: lists of them, a refusal's number and place, and whether lent words are clear or as they were.
// Which answers there are is up to `edges_calls`, `edges` and `edges_reasons`.
#![tactic(auto)]

use edges_text::words;
use probe::ToleranceTooLarge;
use std::fmt;

// Words, parted by commas.
#[derive(Clone, Copy)]
pub struct List<'a>(pub &'a [u64]);

impl fmt::Display for List<'_> {
    fn fmt<W: fmt::Write>(&self, f: &mut fmt::Formatter<W>) -> fmt::Result {
        for (i, word) in self.0.iter().enumerate() {
            if 0 < i {
                f.write_str(",")?;
            }
            write!(f, "{word}")?;
        }
        Ok(())
    }
}

// The number and the place of a refusal, 0 and 0 of what is accepted.
#[derive(Clone, Copy, Default)]
pub struct Judgement {
    pub number: u64,
    pub place: u64,
}

impl Judgement {
    pub fn of<T, E: Copy + Into<Judgement>>(answer: &Result<T, E>) -> Judgement {
        match answer {
            Ok(_) => Judgement::default(),
            Err(refusal) => (*refusal).into(),
        }
    }

    fn without_place(number: u64) -> Judgement {
        Judgement { number, place: 0 }
    }
}

impl From<formula::Refusal> for Judgement {
    fn from(refusal: formula::Refusal) -> Judgement {
        Judgement {
            number: refusal.number(),
            place: refusal.place(),
        }
    }
}

impl From<chain::Refusal> for Judgement {
    fn from(refusal: chain::Refusal) -> Judgement {
        Judgement::without_place(refusal.into())
    }
}

impl From<plan::Refusal> for Judgement {
    fn from(refusal: plan::Refusal) -> Judgement {
        Judgement::without_place(refusal.into())
    }
}

impl From<ToleranceTooLarge> for Judgement {
    fn from(refusal: ToleranceTooLarge) -> Judgement {
        Judgement::without_place(refusal.into())
    }
}

impl fmt::Display for Judgement {
    fn fmt<W: fmt::Write>(&self, f: &mut fmt::Formatter<W>) -> fmt::Result {
        let Judgement { number, place } = *self;
        write!(f, "{number} {place}")
    }
}

// Whether the words are 0.
pub fn clean(words: &[u64]) -> &'static str {
    if words.iter().all(|word| *word == 0) {
        "clean"
    } else {
        "dirty"
    }
}

// Whether the words from a place on are as they were painted.
pub fn kept(words: &[u64], from: usize) -> &'static str {
    if words::is_painted(words, from) {
        "kept"
    } else {
        "changed"
    }
}
