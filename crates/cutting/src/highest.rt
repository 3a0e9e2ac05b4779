// Highest: one more than the highest block that is not EMPTY.
ghost use Rattle.std.specs.Prelude.{◌≡◌};
ghost use Rattle.layout.specs.Sizes.{page_size};
ghost use Rattle.cutting.specs.Highest.{extent_numbers, Highest};
ghost use Rattle.cutting.specs.Parts.{slot_extent, scan_numbers};

use layout::{Layout, Refusal};
use slots::SlotState;
use store::{block, frame};

// How far the slots reach with this one, those below it reaching to `before`; refused where it is not sound.
fn reaching(patch: &[u8], block: u32, before: usize) -> Result<usize, Refusal>
    ensures { extent_numbers result ≡ slot_extent patch.now block before }
{
    match block::state(patch, block)? {
        SlotState::Empty => Ok(before),
        SlotState::Patch(_) | SlotState::Full => Ok(block as usize + 1),
    }
}

// How far n slots reach, in one pass over them: a slot that is not sound is refused wherever it stands.
fn scan(patch: &[u8], n: u32) -> Result<usize, Refusal>
    ensures { extent_numbers result ≡ scan_numbers patch.now n }
{
    let mut blocks = 0;
    for block in 0..n {
        blocks = reaching(patch, block, blocks)?;
    }
    Ok(blocks)
}

// One more than the highest block that is not EMPTY, or 0. The frame is opened with no full area: Highest looks at the patch area alone.
pub fn highest(patch: &[u8]) -> Result<usize, Refusal>
    ensures { Highest page_size patch.now result }
{
    let frame = frame::open(Layout::PAGE as u32, true, true, patch, &patch[..0])?;
    scan(patch, frame.n)
}
