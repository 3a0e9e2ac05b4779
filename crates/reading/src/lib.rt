// Read: a block's page, as it stands now.
#![tactic(auto)]

pub mod mapped;

ghost use Rattle.std.specs.Prelude.{◌≡◌, ◌≤◌, length};
ghost use Rattle.layout.specs.Sizes.{page_size};
ghost use Rattle.payload.specs.Steps.{farthest};
ghost use Rattle.reading.specs.Parts.{BlockRead, PatchRead, PlaceRead};
ghost use Rattle.reading.specs.Read.{Read};

use layout::{Kind, Layout, Refusal, RefusedAt};
use slots::SlotState;
use store::areas::Areas;

// A patched block is what Apply makes of its payload, which is checked whole before the page's first byte is written.
fn read_patch(base: &[u8], payload: &[u8], page: &mut [u8]) -> Result<Kind, RefusedAt>
    requires { (length base.now ≡ length page.old) × (length page.old ≤ farthest) }
    ensures { PatchRead (length page.old) base.now payload.now page.old result
        page.new }
{
    stream::apply_to(base, payload, page)?;
    Ok(Kind::Patch)
}

// A block's place in the full area; a block not below m has none.
fn read_place(areas: Areas<'_>, block: u32, page: &mut [u8]) -> Result<Kind, RefusedAt>
    requires { length page.old ≡ areas.frame.size }
    ensures { PlaceRead areas.entry.frame.size areas.entry.full.now block page.old result page.new }
{
    let Some(place) = areas.place(block) else {
        return Err(Refusal::FullPage.into());
    };
    span::copy(page, place);
    Ok(Kind::Full)
}

// A block below n, over a base that is there. The page is lent to be written, so that its length is a clause here and of no type.
fn read_block(areas: Areas<'_>, block: u32, base: &[u8], page: &mut [u8]) -> Result<Kind, RefusedAt>
    requires { (length base.now ≡ areas.frame.size) × (length page.old ≡ areas.frame.size) }
    ensures { BlockRead areas.entry.frame.size areas.entry.patch.now areas.entry.full.now block base.now page.old
        result page.new }
{
    let slot = areas.slot(block);
    match slots::slot_state(slot)? {
        SlotState::Empty => {
            span::copy(page, base);
            Ok(Kind::Empty)
        }
        SlotState::Patch(n) => read_patch(base, span::part(slot, Layout::PAYLOAD_AT, n), page),
        SlotState::Full => read_place(areas, block, page),
    }
}

// A block's page: its base, its patched base or its full page.
pub fn read(
    patch: &[u8],
    full: &[u8],
    block: usize,
    base: &[u8],
    page: &mut [u8],
) -> Result<Kind, RefusedAt>
    ensures { Read page_size patch.now full.now block base.now page.old result
        page.new }
{
    let size = Layout::PAGE as u32;
    let fit = stream::pages_fit(size, base, page);
    let areas = Areas::open(size, fit, true, patch, full)?;
    if areas.frame.n as usize <= block {
        return Err(Refusal::Block.into());
    }
    let block = block as u32;
    if base.is_empty() {
        let zeros = [0u8; Layout::PAGE];
        return read_block(areas, block, &zeros, page);
    }
    read_block(areas, block, base, page)
}
