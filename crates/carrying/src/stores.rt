// The two whole stores of carrying out a decision on a block, its slot and its place in the full area, and as many of them as are told, in
// their order. Both areas are lent to be written, so that a value of both would say its clause of what it was and of what it is.
ghost use Rattle.std.specs.Prelude.{◌≡◌, cond, [], ◌∷◌, eqb, take};
ghost use Rattle.layout.specs.Sizes.{full_kind};
ghost use Rattle.layout.specs.Numbers.{kind_number};
ghost use Rattle.carrying.specs.Puts.{slot, place, put_slot, put_place, order};
ghost use Rattle.carrying.specs.Parts.{decision_stored, SlotWithin, FullArea, PageLent, Lent, Due, Made};

use crate::decision::Stored;
use layout::{Kind, Layout};
use store::frame::Frame;

// The block's slot, whatever stood there.
fn store_slot(patch: &mut [u8], block: u32, stored: Stored)
    requires { SlotWithin patch.old block }
    ensures { patch.new ≡ put_slot patch.old block (kind_number stored.entry.kind) stored.entry.payload.now }
{
    let at = Layout::slot_at(block);
    let end = at + Layout::SLOT;
    slots::put_slot(&mut patch[at..end], stored.kind, stored.payload);
}

// The block's place in the full area, if there is one: the page for FULL_REF, zeros for any other kind.
fn store_place(frame: Frame, full: &mut [u8], block: u32, stored: Stored)
    requires full_area { FullArea frame.size frame.m full.old }
    requires page_lent { PageLent frame.size (decision_stored stored) }
    ensures { full.new ≡ put_place frame.size full.old block (kind_number stored.entry.kind) stored.entry.page.now }
{
    if frame.m <= block {
        return;
    }
    let at = Layout::page_at(frame.size, block);
    let end = at + frame.size as usize;
    match stored.kind {
        Kind::Empty | Kind::Patch => span::fill(&mut full[at..end]),
        Kind::Full => span::copy(&mut full[at..end], stored.page),
    }
}

// One store, the place or the slot, where it is due. A function of its own, so that all calls make their stores on one path: told one or all, the
// first store is the same.
fn one_store(
    of_place: bool,
    frame: Frame,
    patch: &mut [u8],
    full: &mut [u8],
    block: u32,
    stored: Stored,
)
    requires lent { Lent frame.size frame.m patch.old full.old block (decision_stored stored) }
    requires due { Due frame.size block (decision_stored stored) of_place patch.old full.old }
    ensures { Made frame.size block (decision_stored stored.entry) (cond of_place place slot ∷ []) patch.old full.old patch.new
        full.new }
{
    if of_place {
        return store_place(frame, full, block, stored);
    }
    store_slot(patch, block, stored);
}

// Whether the place is stored before the slot. The slot is what a block is read by, so a page must be there before its slot refers to it,
// and an old page must stay until no slot refers to it.
fn place_first(kind: Kind) -> bool
    ensures { result ≡ eqb (kind_number kind) full_kind }
{
    match kind {
        Kind::Full => true,
        Kind::Empty | Kind::Patch => false,
    }
}

// As many stores as are told: none, the first, or, for any other number, both.
pub(crate) fn store_first(
    stores: usize,
    frame: Frame,
    patch: &mut [u8],
    full: &mut [u8],
    block: u32,
    stored: Stored,
)
    requires { Lent frame.size frame.m patch.old full.old block (decision_stored stored) }
    ensures { Made frame.size block (decision_stored stored.entry) (take stores (order (kind_number stored.entry.kind)))
        patch.old full.old patch.new full.new }
{
    let of_place = place_first(stored.kind);
    if stores == 0 {
        return;
    }
    one_store(of_place, frame, patch, full, block, stored);
    if stores == 1 {
        return;
    }
    one_store(!of_place, frame, patch, full, block, stored);
}
