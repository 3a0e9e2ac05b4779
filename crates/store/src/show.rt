// Show: a block's payload where it lies.
ghost use Rattle.std.specs.Prelude.{◌≡◌};
ghost use Rattle.layout.specs.Sizes.{page_size};
ghost use Rattle.store.specs.Show.{found_place, show_place, Show};

use crate::{Place, block, frame};
use layout::{Layout, Refusal};

// Where the payload of a block lies in the patch area. The frame is opened with no full area: Show looks at the patch area alone.
fn find_payload(patch: &[u8], block: usize) -> Result<Place, Refusal>
    ensures { found_place result ≡ show_place page_size patch.now block }
{
    let opened = frame::open(Layout::PAGE as u32, true, true, patch, &patch[..0])?;
    if opened.n as usize <= block {
        return Err(Refusal::Block);
    }
    let at = Layout::slot_at(block as u32);
    let Some(len) = slots::payload_length(block::slot(patch, block as u32)) else {
        return Err(Refusal::Slot);
    };
    Ok(Place {
        at: at + Layout::PAYLOAD_AT,
        len,
    })
}

// The same; an empty part at 0 if anything is wrong, or the slot is not a sound PATCH: so the paper hands it out, and no Option.
pub fn payload_place(patch: &[u8], block: usize) -> Place
    ensures { result ≡ show_place page_size patch.now block }
{
    find_payload(patch, block).unwrap_or(Place { at: 0, len: 0 })
}

// A block's payload, as a part of the patch area itself, where `payload_place` says.
pub fn show(patch: &[u8], block: usize) -> &[u8]
    ensures { Show page_size patch.now block patch.entry.ref_ptr result.now result.ref_ptr }
{
    let place = payload_place(patch, block);
    let at = place.at;
    let end = at + place.len;
    &patch[at..end]
}
