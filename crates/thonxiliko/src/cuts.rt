// The calls that cut a table short and tell how many blocks are left.
ghost use Rattle.layout.specs.Sizes.{page_size};
ghost use Rattle.thonxiliko.specs.Cuts.{ThxCut, ThxCutMapped, ThxHighest};

use crate::{thx_done, thx_extent};

#[tactic(auto, using(crate::specs::CutLaws::cut_held))]
#[unsafe(no_mangle)]
pub extern "C" fn thx_cut(patch: &mut [u8], full: &mut [u8], k: u64) -> thx_done
    ensures { ThxCut page_size patch.old full.old k result patch.new full.new }
{
    cutting::cut(patch, full, k as usize).into()
}

#[tactic(auto, using(crate::specs::CutLaws::cut_mapped_held))]
#[unsafe(no_mangle)]
pub extern "C" fn thx_cut_mapped(
    patch: &mut [u8],
    full: &mut [u8],
    map: &mut [u8],
    k: u64,
) -> thx_done
    ensures { ThxCutMapped page_size patch.old full.old map.old k result patch.new
        full.new map.new }
{
    cutting::mapped::cut_mapped(patch, full, map, k as usize).into()
}

#[tactic(auto, using(crate::specs::CutLaws::highest_held))]
#[unsafe(no_mangle)]
pub extern "C" fn thx_highest(patch: &[u8]) -> thx_extent
    ensures { ThxHighest page_size patch.now result }
{
    cutting::highest::highest(patch).into()
}
