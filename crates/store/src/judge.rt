// Judge: what one slot is, whatever its entries are.
ghost use Rattle.store.specs.Judge.{Judge};

use crate::Judged;
use layout::{Kind, Layout, Refusal};
use slots::SlotState;

// A slot's kind and payload length. Entries are not looked at.
pub fn judge(slot: &[u8]) -> Result<Judged, Refusal>
    ensures { Judge slot.now result }
{
    if slot.len() != Layout::SLOT {
        return Err(Refusal::Length);
    }
    let (kind, length) = match slots::slot_state(slot)? {
        SlotState::Empty => (Kind::Empty, 0),
        SlotState::Patch(n) => (Kind::Patch, n),
        SlotState::Full => (Kind::Full, 0),
    };
    Ok(Judged { kind, length })
}
