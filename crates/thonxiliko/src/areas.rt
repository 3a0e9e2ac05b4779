// The calls on areas and slots.
ghost use Rattle.layout.specs.Sizes.{page_size};
ghost use Rattle.thonxiliko.specs.Areas.{ThxFormat, ThxJudge, ThxShow, ThxRead, ThxCarryOut, ThxBuild};

use crate::{thx_built, thx_done, thx_judged, thx_part, thx_reading, thx_written};

#[tactic(auto, using(crate::specs::AreaLaws::format_held))]
#[unsafe(no_mangle)]
pub extern "C" fn thx_format(patch: &mut [u8], full: &mut [u8]) -> thx_done
    ensures { ThxFormat page_size patch.old full.old result patch.new full.new }
{
    store::format::format(patch, full).into()
}

#[tactic(auto, using(crate::specs::AreaLaws::judge_held, crate::specs::Widths::judge_fits))]
#[unsafe(no_mangle)]
pub extern "C" fn thx_judge(slot: &[u8]) -> thx_judged
    ensures { ThxJudge slot.now result }
{
    thx_judged::of(store::judge::judge(slot))
}

// An exported function returns no reference, so this is the place of the part that Show hands out.
#[unsafe(no_mangle)]
pub extern "C" fn thx_show(patch: &[u8], block: u64) -> thx_part
    ensures { ThxShow page_size patch.now block result }
{
    store::show::payload_place(patch, block as usize).into()
}

#[tactic(auto, using(crate::specs::AreaLaws::read_held))]
#[unsafe(no_mangle)]
pub extern "C" fn thx_read(
    patch: &[u8],
    full: &[u8],
    block: u64,
    base: &[u8],
    page: &mut [u8],
) -> thx_reading
    ensures { ThxRead page_size patch.now full.now block base.now page.old result
        page.new }
{
    thx_reading::of(reading::read(patch, full, block as usize, base, page))
}

#[tactic(auto, using(crate::specs::AreaLaws::carry_held))]
#[unsafe(no_mangle)]
pub extern "C" fn thx_carry_out(
    patch: &mut [u8],
    full: &mut [u8],
    block: u64,
    kind: u32,
    payload: &[u8],
    page: &[u8],
    stores: u64,
) -> thx_written
    ensures { ThxCarryOut page_size patch.old full.old block
        (record { kind = kind; payload = payload.now; page = page.now }) stores result patch.new full.new }
{
    thx_written::of(carrying::carry_out(
        patch,
        full,
        block as usize,
        kind,
        payload,
        page,
        stores as usize,
    ))
}

#[tactic(auto, using(crate::specs::AreaLaws::build_held))]
#[unsafe(no_mangle)]
pub extern "C" fn thx_build(patch: &[u8], full: &[u8], map: &mut [u8]) -> thx_built
    ensures { ThxBuild page_size patch.now full.now map.old result map.new }
{
    thx_built::of(building::build(patch, full, map))
}
