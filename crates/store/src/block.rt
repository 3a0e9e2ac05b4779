// One block in a patch area: its slot, and what the slot is.
ghost use Rattle.std.specs.Prelude.{◌≡◌};
ghost use Rattle.slots.specs.Slots.{slot_numbers, state_numbers};
ghost use Rattle.store.specs.Block.{slot_of};

use layout::{Layout, Refusal};
use slots::SlotState;

// A block's slot, or as much of it as the area has.
pub fn slot(patch: &[u8], block: u32) -> &[u8]
    ensures { result.now ≡ slot_of patch.now block }
{
    span::part(patch, Layout::slot_at(block), Layout::SLOT)
}

// What a block's slot is. Inlined, as `slot_state` is.
#[inline(always)]
pub fn state(patch: &[u8], block: u32) -> Result<SlotState, Refusal>
    ensures { state_numbers result ≡ slot_numbers (slot_of patch.now block) }
{
    slots::slot_state(slot(patch, block))
}
