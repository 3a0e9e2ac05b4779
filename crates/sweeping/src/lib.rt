// Sweep: what stopped writes left in the full area goes. Every place whose slot is not FULL_REF becomes zeros.
#![tactic(auto)]

ghost use Rattle.std.specs.Prelude.{◌≤◌, ◌≡◌, length, cond, ◌+◌};
ghost use Rattle.span.specs.Bytes.{zeros, splice};
ghost use Rattle.layout.specs.Sizes.{page_size, slot_size, slot_at, page_at};
ghost use Rattle.layout.specs.Numbers.{answer_number};
ghost use Rattle.layout.specs.FirstFault.{first_fault};
ghost use Rattle.layout.specs.Lengths.{pages_in};
ghost use Rattle.store.specs.Block.{Places};
ghost use Rattle.sweeping.specs.Sweep.{zeroed_but, Sweep};
ghost use Rattle.sweeping.specs.Parts.{slot_fault, marked};

use layout::{Layout, Refusal};
use slots::SlotState;
use store::block;
use store::frame::{self, Frame};

// What is wrong with one block's slot, beside m pages: it is not sound, or its page is not there. Its payload is not looked at.
fn check_slot(m: u32, patch: &[u8], block: u32) -> Result<(), Refusal>
    ensures { answer_number result ≡ slot_fault m patch.now block }
{
    match block::state(patch, block)? {
        SlotState::Empty | SlotState::Patch(_) => Ok(()),
        SlotState::Full if block < m => Ok(()),
        SlotState::Full => Err(Refusal::FullPage),
    }
}

// What is wrong first with the slots, in rising order.
#[tactic(auto, using(layout::specs::FirstFaultLaws::fault_here, layout::specs::FirstFaultLaws::fault_next, layout::specs::FirstFaultLaws::fault_end))]
fn check_slots(frame: Frame, patch: &[u8]) -> Result<(), Refusal>
    ensures { answer_number result ≡ (first_fault (slot_fault frame.m patch.now) 0 frame.n).number }
{
    for block in 0..frame.n {
        check_slot(frame.m, patch, block)?;
    }
    Ok(())
}

// Whether a sound slot is FULL_REF, by its first byte alone.
fn is_full(patch: &[u8], block: u32) -> bool
    requires { slot_at block + slot_size ≤ length patch.now }
    ensures { result ≡ marked patch.now block }
{
    patch[Layout::slot_at(block) + Layout::KIND_AT] == Layout::FULL_KIND
}

// A block's place becomes zeros, unless its slot is FULL_REF.
fn sweep_place(size: u32, patch: &[u8], full: &mut [u8], block: u32)
    requires slot_within { slot_at block + slot_size ≤ length patch.now }
    requires place_within { page_at size block + size ≤ length full.old }
    ensures { full.new ≡ cond (marked patch.now block) full.old
        (splice full.old (page_at size block) (zeros size)) }
{
    if is_full(patch, block) {
        return;
    }
    let at = Layout::page_at(size, block);
    let end = at + (size as usize);
    span::fill(&mut full[at..end]);
}

// The same for the first m blocks, all of whose slots are sound.
fn sweep_places(frame: Frame, patch: &[u8], full: &mut [u8])
    requires { (slot_at frame.m ≤ length patch.now) × (frame.m ≡ pages_in frame.size (length full.old)) × Places frame.size full.old }
    ensures { full.new ≡ zeroed_but (marked patch.now) frame.size frame.m full.old }
{
    for block in 0..frame.m {
        sweep_place(frame.size, patch, full, block);
    }
}

// Every slot is checked before the first place is changed.
pub fn sweep(patch: &[u8], full: &mut [u8]) -> Result<(), Refusal>
    ensures { Sweep page_size patch.now full.old result full.new }
{
    let frame = frame::open(Layout::PAGE as u32, true, true, patch, full)?;
    check_slots(frame, patch)?;
    sweep_places(frame, patch, full);
    Ok(())
}
