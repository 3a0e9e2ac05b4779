// The headers of both areas: written, and checked.
#![tactic(auto)]

mod head;

ghost use Rattle.std.specs.Prelude.{◌≡◌, length, take};
ghost use Rattle.layout.specs.Numbers.{answer_number};
ghost use Rattle.layout.specs.Refusals.{first_of};
ghost use Rattle.headers.specs.Headers.{full_head_rows, header_rows};
ghost use Rattle.headers.specs.Stored.{stored_size};
ghost use Rattle.headers.specs.Fresh.{fresh_patch, fresh_full};

use head::Head;
use layout::{Layout, Refusal};

// The page size that an area's header gives. Bytes past the area's end count as zeros.
pub fn stored_size(area: &[u8]) -> u32
    ensures { result ≡ stored_size area.now }
{
    let mut bytes = [0; Layout::SIZE_WIDTH];
    span::copy(
        &mut bytes,
        span::part(area, Layout::PAGE_SIZE_AT, Layout::SIZE_WIDTH),
    );
    u32::from_le_bytes(bytes)
}

// What is wrong first with the header of a full area of pages of this size. One of length 0 has none.
#[tactic(auto, using(crate::specs::HeaderLaws::full_absent, crate::proofs::Images::present_rows))]
fn check_full(size: u32, full: &[u8]) -> Result<(), Refusal>
    ensures { answer_number result ≡ first_of (full_head_rows size full.now) }
{
    if full.is_empty() {
        return Ok(());
    }
    Head::FULL.check(size, full)
}

// What is wrong first with both headers.
pub fn check_headers(size: u32, patch: &[u8], full: &[u8]) -> Result<(), Refusal>
    ensures { answer_number result ≡ first_of (header_rows size patch.now full.now) }
{
    Head::PATCH.check(size, patch)?;
    check_full(size, full)
}

// A fresh patch area of pages of this size, as far as it goes.
pub fn begin_patch(size: u32, patch: &mut [u8])
    ensures { patch.new ≡ take (length patch.old) (fresh_patch size (length patch.old)) }
{
    Head::PATCH.begin(size, patch);
}

// A fresh full area of pages of this size, as far as it goes.
pub fn begin_full(size: u32, full: &mut [u8])
    ensures { full.new ≡ take (length full.old) (fresh_full size (length full.old)) }
{
    Head::FULL.begin(size, full);
}
