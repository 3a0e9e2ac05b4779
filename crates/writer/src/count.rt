// The numbers of differences that are only counted.
ghost use Rattle.std.specs.Prelude.{◌≡◌, ◌+◌, ◌≤◌, length as length_of};
ghost use Rattle.differ.specs.Differ.{chunk, after_last};
ghost use Rattle.writer.specs.Steps.{width_of, Numbers, Reached, Unlike, excess_of};

use crate::pages::Pages;
use crate::{Difference, Spelled};
use differ::Grid;
use payload::Code;

// How many bytes an entry takes.
fn entry_width(jump: usize) -> usize
    ensures { result ≡ width_of jump }
{
    if Code::LONG as usize <= jump {
        return Code::LONG_WIDTH;
    }
    Code::SHORT_WIDTH
}

impl<'a> Pages<'a> {
    // The numbers of a stream of which so much is known before `from`, each difference by itself: for the last bytes.
    fn count_each(self, from: usize, before: Spelled) -> Difference
        requires { Reached self.base.now self.page.now from before }
        ensures { Numbers self.entry.base.now self.entry.page.now result }
    {
        let mut s = before;
        let mut past = from;
        loop {
            let at = differ::next_diff(self.base, self.page, past);
            if self.page.len() <= at {
                return s.found();
            }
            past = at + 1;
            s = Spelled {
                used: s.used + entry_width(at - s.next),
                entries: s.entries + 1,
                next: past,
            };
        }
    }

    // How many bytes more than a short one the entry of the next difference from `at` on takes.
    fn excess(self, at: usize, next: usize) -> usize
        requires { next ≤ at }
        ensures { result ≡ excess_of self.entry.base.now self.entry.page.now at next }
    {
        entry_width(differ::next_diff(self.base, self.page, at) - next) - Code::SHORT_WIDTH
    }

    // The same, where the last difference before is in the chunk at `mark`. It is looked for only if it may be out of a byte's reach.
    fn excess_after(self, mark: usize, at: usize) -> usize
        requires { (mark + chunk ≤ at) × Unlike self.base.now self.page.now mark × Unlike self.base.now self.page.now at }
        ensures { result ≡ excess_of self.entry.base.now self.entry.page.now at (after_last self.entry.base.now self.entry.page.now mark chunk) }
    {
        if at - mark <= 3 * Grid::CHUNK {
            return 0;
        }
        self.excess(at, differ::after_chunk(self.base, self.page, mark))
    }

    // The numbers of a stream of which so much is known before `from`. Nothing is stored, so a chunk's differences are counted at one go: all
    // but the first have short entries.
    pub(crate) fn count_rest(self, from: usize, before: Spelled) -> Difference
        requires { (from ≤ length_of self.page.now) × Reached self.base.now self.page.now from before }
        ensures { Numbers self.entry.base.now self.entry.page.now result }
    {
        let end = self.page.len();
        let mut mark = differ::next_unlike::<{ Grid::CHUNK }>(self.base, self.page, from);
        if end - mark < Grid::CHUNK {
            return self.count_each(mark, before);
        }
        let first = differ::count_chunk(self.base, self.page, mark);
        let mut used = before.used + (self.excess(mark, before.next) + Code::SHORT_WIDTH * first);
        let mut entries = before.entries + first;
        loop {
            let at = differ::next_unlike::<{ Grid::CHUNK }>(
                self.base,
                self.page,
                mark + Grid::CHUNK,
            );
            if end - at < Grid::CHUNK {
                let next = differ::after_chunk(self.base, self.page, mark);
                return self.count_each(
                    at,
                    Spelled {
                        used,
                        entries,
                        next,
                    },
                );
            }
            let more = differ::count_chunk(self.base, self.page, at);
            used += self.excess_after(mark, at) + Code::SHORT_WIDTH * more;
            entries += more;
            mark = at;
        }
    }
}
