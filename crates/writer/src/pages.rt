// The two pages as the writer looks at them.
ghost use Rattle.std.specs.Prelude.{◌≡◌, ◌≤◌, length as length_of, take};
ghost use Rattle.payload.specs.Steps.{farthest};
ghost use Rattle.writer.specs.Steps.{shared, Differs};
ghost use Rattle.writer.specs.Words.{Bytes};

use crate::{Difference, Spelled};
use differ::Grid;
use payload::Code;

// A base and a page, cut to the places that both have and that an entry reaches.
#[derive(Clone, Copy)]
pub(crate) struct Pages<'a> {
    pub(crate) base: &'a [u8],
    pub(crate) page: &'a [u8],
    ghost even: { length_of base.now ≡ length_of page.now },
    ghost near: { length_of page.now ≤ farthest },
    ghost bytes: { Bytes base.now × Bytes page.now },
}

impl<'a> Pages<'a> {
    pub(crate) fn of(base: &'a [u8], page: &'a [u8]) -> Self
        ensures { (result.base.now ≡ take (shared base.now page.now) base.now) × (result.page.now ≡ take (shared base.now page.now) page.now) }
    {
        let end = base.len().min(page.len()).min(Code::REACH);
        Pages {
            base: &base[..end],
            page: &page[..end],
        }
    }

    // One pass over both pages on the grid. Equal bytes go by in `next_unlike`; once the room is full, the rest is only counted.
    pub(crate) fn stream(self, room: &mut [u8]) -> Difference
        ensures { Differs self.entry.base.now self.entry.page.now room.old result room.new }
    {
        let end = self.page.len();
        let mut s = Spelled::default();
        let mut at = 0;
        loop {
            at = differ::next_unlike::<{ Grid::STRIDE }>(self.base, self.page, at);
            if end - at < Grid::STRIDE {
                return self.spell_tail(at, room, s).found();
            }
            if room.len() <= s.used {
                return self.count_rest(at, s);
            }
            s = self.spell_chunk(at, room, s);
            at += Grid::STRIDE;
        }
    }
}
