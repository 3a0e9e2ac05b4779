// Cut a table short: blocks K and up dropped in one go. Highest tells how many blocks are left.
#![tactic(auto)]

pub mod highest;
pub mod mapped;

ghost use Rattle.layout.specs.Sizes.{page_size};
ghost use Rattle.cutting.specs.Cut.{Cut};
ghost use Rattle.cutting.specs.Parts.{CutWith};

use layout::{Layout, Refusal};
use store::frame;

// Drops blocks k and up, told whether the call's buffer has the length that it must have. No slot and no place is looked at. Slots go first:
// a block without its slot reads as its base, one without its place would read as zeros.
pub(crate) fn cut_with(
    buffer_fits: bool,
    patch: &mut [u8],
    full: &mut [u8],
    k: usize,
) -> Result<(), Refusal>
    ensures { CutWith page_size buffer_fits patch.old full.old k result patch.new full.new }
{
    let frame = frame::open(Layout::PAGE as u32, true, buffer_fits, patch, full)?;
    if (frame.n as usize) < k {
        return Err(Refusal::Block);
    }
    let block = k as u32;
    span::fill_from(patch, Layout::slot_at(block));
    span::fill_from(full, Layout::page_at(frame.size, block));
    Ok(())
}

// The slots and the places of blocks k and up become zero; k may be n.
pub fn cut(patch: &mut [u8], full: &mut [u8], k: usize) -> Result<(), Refusal>
    ensures { Cut page_size patch.old full.old k result patch.new full.new }
{
    cut_with(true, patch, full, k)
}
