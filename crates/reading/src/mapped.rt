// Read by a lent map: a block's own pair says what it holds, so its slot is looked at only where the pair says PATCH.
ghost use Rattle.std.specs.Prelude.{◌≡◌, length};
ghost use Rattle.layout.specs.Sizes.{page_size};
ghost use Rattle.layout.specs.Numbers.{kind_number};
ghost use Rattle.reading.specs.Parts.{KindRead, SlotRead};
ghost use Rattle.reading.specs.Mapped.{ReadMapped};

use layout::{Kind, Layout, Refusal, RefusedAt};
use store::areas::Areas;

// A block whose pair says PATCH, whatever the full area is: its slot must be a sound one.
fn read_slot(areas: Areas<'_>, block: u32, base: &[u8], page: &mut [u8]) -> Result<Kind, RefusedAt>
    requires { (length base.now ≡ areas.frame.size) × (length page.old ≡ areas.frame.size) }
    ensures { SlotRead (length page.old) areas.entry.patch.now block base.now page.old result
        page.new }
{
    let slot = areas.slot(block);
    let Some(n) = slots::payload_length(slot) else {
        return Err(Refusal::Slot.into());
    };
    crate::read_patch(base, span::part(slot, Layout::PAYLOAD_AT, n), page)
}

// A block below n whose pair stands for this kind, over a base that is there.
fn read_as(
    kind: Kind,
    areas: Areas<'_>,
    block: u32,
    base: &[u8],
    page: &mut [u8],
) -> Result<Kind, RefusedAt>
    requires { (length base.now ≡ areas.frame.size) × (length page.old ≡ areas.frame.size) }
    ensures { KindRead (kind_number kind) areas.entry.frame.size areas.entry.patch.now areas.entry.full.now block base.now
        page.old result page.new }
{
    match kind {
        Kind::Empty => {
            span::copy(page, base);
            Ok(Kind::Empty)
        }
        Kind::Patch => read_slot(areas, block, base, page),
        Kind::Full => crate::read_place(areas, block, page),
    }
}

// A block's page by the map's word: its base, its patched base or its full page. Look up gives 5 and 11.
pub fn read_mapped(
    patch: &[u8],
    full: &[u8],
    map: &[u8],
    block: usize,
    base: &[u8],
    page: &mut [u8],
) -> Result<Kind, RefusedAt>
    ensures { ReadMapped page_size patch.now full.now map.now block base.now
        page.old result page.new }
{
    let size = Layout::PAGE as u32;
    let fit = stream::pages_fit(size, base, page);
    let needed = blockmap::map_bytes(layout::area::blocks(patch.len()));
    let areas = Areas::open(size, fit, needed <= map.len(), patch, full)?;
    let kind = blockmap::look_up(map, areas.frame.n as usize, block)?;
    let block = block as u32;
    if base.is_empty() {
        let zeros = [0u8; Layout::PAGE];
        return read_as(kind, areas, block, &zeros, page);
    }
    read_as(kind, areas, block, base, page)
}
