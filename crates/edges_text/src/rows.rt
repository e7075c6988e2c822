// The words of a plan as a case writes them: its next row, words at a place of their own, and the grid that a formula is compiled on.
// What is asked of a plan is up to `edges` and `edges_reasons`.
use crate::{text, words};
use plan::{PLAN_WORDS, ROW_WORDS, SPAN_START};

// The words of a case's plan, some of them past those that a call may reach.
pub const CASE_WORDS: usize = 3000;

// In row 0: the place behind its elements, and that of its end byte.
pub const ELEMENTS_END: usize = 1 + SPAN_START;

pub const END_BYTE: usize = ELEMENTS_END + 1;

// The grid of a formula of which a case says none.
pub const PLAIN: Grid = Grid { start: 0, step: 1 };

#[derive(Clone, Copy)]
pub struct Grid {
    pub start: u64,
    pub step: u64,
}

// A plan as a case writes it, and how many of its words are lent.
#[derive(Drop)]
pub struct CasePlan {
    pub words: [u64; CASE_WORDS],
    pub lent: usize,
}

impl CasePlan {
    pub fn new() -> CasePlan {
        let words = [0; CASE_WORDS];
        CasePlan {
            words,
            lent: PLAN_WORDS,
        }
    }

    pub fn lent(&mut self) -> &mut [u64] {
        let count = self.lent.min(CASE_WORDS);
        &mut self.words[..count]
    }

    // Does what a token says: #2816 lends 2,816 words, @40,7,8 puts 7 and 8 in the words from 40 on, and any other one is the next row.
    pub fn write(&mut self, token: &[u8]) {
        match token {
            [b'#', ..] => self.lent = text::number(token, 0) as usize,
            [b'@', ..] => plant(token, &mut self.words),
            _ => add(token, &mut self.words),
        }
    }
}

// The next row. Its text is the first byte, unless the token has a word for its end.
pub fn add(token: &[u8], plan: &mut [u64]) {
    let r = words::word_at(plan, 0);
    let before = r.wrapping_mul(ROW_WORDS as u64) as usize;
    words::put(plan, before.wrapping_add(END_BYTE), 1);
    words::put_list(token, r, plan, before.wrapping_add(1));
    words::put(plan, 0, r.wrapping_add(1));
}

// Words at a place of their own: @40,7,8 is 7 and 8 from the place 40 on.
pub fn plant(token: &[u8], plan: &mut [u64]) {
    let start = text::number(text::before(token, b','), 0) as usize;
    words::put_list(text::after(token, b','), 0, plan, start);
}

// g5,2:x^3 has start 5 and step 2; the formula stands behind the colon.
pub fn grid_of(token: &[u8]) -> Grid {
    let numbers = text::before(text::after(token, b'g'), b':');
    Grid {
        start: text::number(text::before(numbers, b','), 0),
        step: text::number(text::after(numbers, b','), 0),
    }
}
