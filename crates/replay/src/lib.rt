// A run of writes and cuts from lent buffers, each on the areas that the ones before it left. A write is a pair of calls: Compare decides,
// and where it answers 0 its decision is carried out. Bases and pages stand one after the other, a whole page each; where `bases` has no
// more, the base is absent. What is proved of runs is so of the runs that can be lent in this form.
#![tactic(auto)]

mod lent;

ghost use Rattle.std.specs.Prelude.{◌≡◌, ◌≤◌, cond, ◌*◌, eqb, get_or, length, take};
ghost use Rattle.span.specs.Bytes.{part};
ghost use Rattle.layout.specs.Sizes.{page_size, patch_kind};
ghost use Rattle.layout.specs.Numbers.{kind_number};
ghost use Rattle.replay.specs.Operations.{write_of, operation, operations, answer_mark, Made, Ran, Replayed, ReplayedWith};

use layout::{Layout, Refusal};
use lent::{Alone, Lent, WithMap};

// The i-th of pages that stand one after the other, or as much of it as there is.
fn nth_page(pages: &[u8], i: usize) -> &[u8]
    ensures { result.now ≡ part (page_size * i) page_size pages.now }
{
    span::part(pages, Layout::PAGE.saturating_mul(i), Layout::PAGE)
}

// The i-th byte of `cuts`, or 0 where there is no more.
fn cut_at(cuts: &[u8], i: usize) -> u8
    ensures { result ≡ get_or cuts.now i 0 }
{
    cuts.get(i).copied().unwrap_or(0)
}

// One write of a run. What Compare refuses is not carried out: its kind, 0, would empty the block.
fn write_turn<L: Lent>(lent: &mut L, block: usize, base: &[u8], page: &[u8]) -> Result<(), Refusal>
    ensures made { Made L.takes L.does (L.state lent.old) (write_of page_size block base.now page.now)
        (answer_mark result) (L.state lent.new) }
    ensures named { L.names lent.new ≡ L.names lent.old }
{
    let mut room = [0u8; Layout::ROOM];
    let decided = stream::compare(base, page, &mut room)?;
    let payload = decided.payload(&room);
    lent.carry(block, decided.kind, payload, page)
}

// One operation of a run: a cut where `cut` is not 0, else a write. The two numbers stand in lent buffers so, and an enum would be read from them here
// and matched here.
fn turn<L: Lent>(
    lent: &mut L,
    cut: u8,
    number: u64,
    base: &[u8],
    page: &[u8],
) -> Result<(), Refusal>
    ensures made { Made L.takes L.does (L.state lent.old) (operation page_size cut number base.now page.now)
        (answer_mark result) (L.state lent.new) }
    ensures named { L.names lent.new ≡ L.names lent.old }
{
    if cut == 0 {
        return write_turn(lent, number as usize, base, page);
    }
    lent.cut(number as usize)
}

// The run, whatever is lent to its operations.
// By index: `cuts`, `bases`, `pages` and `marks` are used at the same place, and each may be too short for it.
fn run<L: Lent>(
    lent: &mut L,
    numbers: &[u64],
    cuts: &[u8],
    bases: &[u8],
    pages: &[u8],
    marks: &mut [u8],
) -> usize
    ensures ran { Ran L.takes L.does (L.state lent.old) (operations page_size numbers.now cuts.now bases.now pages.now)
        marks.old result (L.state lent.new) marks.new }
    ensures named { L.names lent.new ≡ L.names lent.old }
{
    let mut accepted = 0;
    for i in 0..numbers.len() {
        let cut = cut_at(cuts, i);
        let base = nth_page(bases, i);
        let page = nth_page(pages, i);
        let answer = turn(lent, cut, numbers[i], base, page);
        let mark = u8::from(answer.is_ok());
        span::put(marks, i, mark);
        accepted += usize::from(mark);
    }
    accepted
}

// Makes as many operations as there are numbers. The i-th is a cut at the i-th number where the i-th byte of `cuts` is there and not 0,
// else the write of the i-th page of `pages`, over that of `bases`, to that block. A cut has its place in `bases` and `pages` too, and
// looks at neither. Marks 1 for an accepted operation and 0 for a refused one, by Compare too, as far as `marks` goes, and answers how many
// were accepted.
pub fn replay(
    patch: &mut [u8],
    full: &mut [u8],
    numbers: &[u64],
    cuts: &[u8],
    bases: &[u8],
    pages: &[u8],
    marks: &mut [u8],
) -> usize
    ensures { Replayed page_size patch.old full.old numbers.now cuts.now
        bases.now pages.now marks.old result patch.new full.new marks.new }
{
    let mut lent = Alone { patch, full };
    run(&mut lent, numbers, cuts, bases, pages, marks)
}

// The same, with a map lent to every operation.
pub fn replay_mapped(
    patch: &mut [u8],
    full: &mut [u8],
    map: &mut [u8],
    numbers: &[u64],
    cuts: &[u8],
    bases: &[u8],
    pages: &[u8],
    marks: &mut [u8],
) -> usize
    ensures { ReplayedWith page_size patch.old full.old map.old numbers.now
        cuts.now bases.now pages.now marks.old result patch.new full.new
        map.new marks.new }
{
    let mut lent = WithMap { patch, full, map };
    run(&mut lent, numbers, cuts, bases, pages, marks)
}
