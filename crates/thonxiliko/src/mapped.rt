// The calls on areas and a lent map.
ghost use Rattle.layout.specs.Sizes.{page_size};
ghost use Rattle.thonxiliko.specs.Mapped.{ThxCarryOutMapped, ThxReadMapped};

use crate::{thx_reading, thx_written};

#[tactic(auto, using(crate::specs::MappedLaws::carry_mapped_held))]
#[unsafe(no_mangle)]
pub extern "C" fn thx_carry_out_mapped(
    patch: &mut [u8],
    full: &mut [u8],
    map: &mut [u8],
    block: u64,
    kind: u32,
    payload: &[u8],
    page: &[u8],
    stores: u64,
) -> thx_written
    ensures { ThxCarryOutMapped page_size patch.old full.old map.old block
        (record { kind = kind; payload = payload.now; page = page.now }) stores result patch.new full.new
        map.new }
{
    thx_written::of(carrying::mapped::carry_out_mapped(
        patch,
        full,
        map,
        block as usize,
        kind,
        payload,
        page,
        stores as usize,
    ))
}

#[tactic(auto, using(crate::specs::MappedLaws::read_mapped_held))]
#[unsafe(no_mangle)]
pub extern "C" fn thx_read_mapped(
    patch: &[u8],
    full: &[u8],
    map: &[u8],
    block: u64,
    base: &[u8],
    page: &mut [u8],
) -> thx_reading
    ensures { ThxReadMapped page_size patch.now full.now map.now block base.now
        page.old result page.new }
{
    thx_reading::of(reading::mapped::read_mapped(patch, full, map, block as usize, base, page))
}
