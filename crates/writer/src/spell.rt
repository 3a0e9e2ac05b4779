// The entries of differences, stored as far as there is room for them. The loops over `left` go by its set bits and count no index.
ghost use Rattle.std.specs.Prelude.{◌+◌, ◌*◌, ◌≤◌, ◌<◌, length as length_of, ◌≡◌};
ghost use Rattle.span.specs.Bytes.{Put};
ghost use Rattle.differ.specs.Differ.{stride, next_diff};
ghost use Rattle.payload.specs.Steps.{farthest};
ghost use Rattle.writer.specs.Differences.{spelled};
ghost use Rattle.writer.specs.Steps.{Reached, Spells};
ghost use Rattle.writer.specs.Words.{word_bytes, stride_words, marks};

use crate::Spelled;
use crate::pages::Pages;
use crate::words::{WORD, word};
use differ::Grid;
use payload::Code;

const STRIDE_WORDS: usize = Grid::STRIDE / WORD;

// Stores an entry as far as there is room, and answers the place after it, room or not.
fn put_entry(room: &mut [u8], used: usize, jump: usize, value: u8) -> usize
    requires { used ≤ 2 * farthest }
    ensures { Put room.old used (spelled jump value) result room.new }
{
    if jump < Code::LONG as usize {
        span::put(room, used, jump as u8);
        span::put(room, used + 1, value);
        return used + Code::SHORT_WIDTH;
    }
    let digits = jump.to_le_bytes();
    span::put(room, used, Code::LONG);
    span::put(room, used + 1, digits[0]);
    span::put(room, used + 2, digits[1]);
    span::put(room, used + 3, value);
    used + Code::LONG_WIDTH
}

impl<'a> Pages<'a> {
    // The entry of a difference, where all before it are spelled.
    fn spell_one(self, at: usize, room: &mut [u8], before: Spelled) -> Spelled
        requires { (at < length_of self.page.now) × (at ≡ next_diff self.base.now self.page.now at) × Reached self.base.now self.page.now at before }
        ensures { Reached self.entry.base.now self.entry.page.now (at + 1) result
            × Spells self.entry.base.now self.entry.page.now room.old before room.new result }
    {
        Spelled {
            used: put_entry(room, before.used, at - before.next, self.page[at]),
            entries: before.entries + 1,
            next: at + 1,
        }
    }

    // The entries of the differences in one word: of the bits in which both words differ the lowest tells the next byte.
    fn spell_word(self, at: usize, room: &mut [u8], before: Spelled) -> Spelled
        requires { (at + word_bytes ≤ length_of self.page.now) × Reached self.base.now self.page.now at before }
        ensures { Reached self.entry.base.now self.entry.page.now (at + word_bytes) result
            × Spells self.entry.base.now self.entry.page.now room.old before room.new result }
    {
        let mut s = before;
        let mut from = at;
        let mut left = word(self.base, at) ^ word(self.page, at);
        while left != 0 {
            let alike = (u64::trailing_zeros(left) / 8) as usize;
            from += alike;
            s = self.spell_one(from, room, s);
            from += 1;
            left = (left >> (8 * alike)) >> 8;
        }
        s
    }

    // Which words of a chunk of the grid differ, a bit each, the first in the lowest. No word ends the loop, so that all are compared at once.
    fn marks_of(self, at: usize) -> u64
        requires { at + stride ≤ length_of self.page.now }
        ensures { result ≡ marks self.entry.base.now self.entry.page.now at stride_words }
    {
        let mut seen = 0;
        for i in 0..STRIDE_WORDS {
            let here = at + WORD * i;
            seen |= u64::from(word(self.base, here) != word(self.page, here)) << i;
        }
        seen
    }

    // The entries of the differences in one chunk of the grid: only words that differ are looked at, so that how far apart they are is no branch.
    pub(crate) fn spell_chunk(self, at: usize, room: &mut [u8], before: Spelled) -> Spelled
        requires { (at + stride ≤ length_of self.page.now) × Reached self.base.now self.page.now at before }
        ensures { Reached self.entry.base.now self.entry.page.now (at + stride) result
            × Spells self.entry.base.now self.entry.page.now room.old before room.new result }
    {
        let mut s = before;
        let mut left = self.marks_of(at);
        while left != 0 {
            let words = u64::trailing_zeros(left) as usize;
            s = self.spell_word(at + WORD * words, room, s);
            left &= left - 1;
        }
        s
    }

    // The entry of one byte, if it differs.
    fn spell_byte(self, at: usize, room: &mut [u8], before: Spelled) -> Spelled
        requires { (at < length_of self.page.now) × Reached self.base.now self.page.now at before }
        ensures { Reached self.entry.base.now self.entry.page.now (at + 1) result
            × Spells self.entry.base.now self.entry.page.now room.old before room.new result }
    {
        if self.base[at] == self.page[at] {
            return before;
        }
        self.spell_one(at, room, before)
    }

    // The entries of the differences from a place on, byte by byte: for the last bytes of a page, which fill no chunk.
    pub(crate) fn spell_tail(self, from: usize, room: &mut [u8], before: Spelled) -> Spelled
        requires { (from ≤ length_of self.page.now) × Reached self.base.now self.page.now from before }
        ensures { Reached self.entry.base.now self.entry.page.now (length_of self.entry.page.now) result
            × Spells self.entry.base.now self.entry.page.now room.old before room.new result }
    {
        let mut s = before;
        for at in from..self.page.len() {
            s = self.spell_byte(at, room, s);
        }
        s
    }
}
