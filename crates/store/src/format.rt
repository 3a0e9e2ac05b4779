// Format: both areas made fresh.
ghost use Rattle.layout.specs.Sizes.{page_size};
ghost use Rattle.store.specs.Format.{Format};

use layout::{Layout, Refusal};

// Headers, then zeros. Only the lengths are checked; no old byte is looked at.
pub fn format(patch: &mut [u8], full: &mut [u8]) -> Result<(), Refusal>
    ensures { Format page_size patch.old full.old result patch.new full.new }
{
    let size = Layout::PAGE as u32;
    if !layout::area::lengths_fit(size, patch.len(), full.len()) {
        return Err(Refusal::Length);
    }
    headers::begin_patch(size, patch);
    headers::begin_full(size, full);
    Ok(())
}
