// The lengths of both areas, and what they say of n and m.
ghost use Rattle.std.specs.Prelude.{◌≡◌, ◌&&◌};
ghost use Rattle.layout.specs.Sizes.{blocks_at_most};
ghost use Rattle.layout.specs.Lengths.{blocks_in, pages_in, patch_fits, full_fits};

use crate::Layout;

// n: how many slots a patch area of this length has.
#[tactic(auto, unfolding(crate::specs::Lengths::blocks_in))]
pub fn blocks(patch_length: usize) -> usize
    ensures { result ≡ blocks_in patch_length }
{
    patch_length.saturating_sub(Layout::PATCH_HEAD) / Layout::SLOT
}

// m: how many pages of this size a full area of this length has room for.
#[tactic(auto, unfolding(crate::specs::Lengths::pages_in))]
pub fn pages(size: u32, full_length: usize) -> usize
    ensures { result ≡ pages_in size full_length }
{
    full_length
        .saturating_sub(Layout::FULL_HEAD)
        .checked_div(size as usize)
        .unwrap_or(0)
}

// The most blocks of one segment in pages of this size.
pub fn most_blocks(size: u32) -> usize
    ensures { result ≡ blocks_at_most size }
{
    Layout::SEGMENT.checked_div(size as usize).unwrap_or(0)
}

// Whether a patch area may have this length.
pub fn patch_fits(size: u32, patch_length: usize) -> bool
    ensures { result ≡ patch_fits size patch_length }
{
    if patch_length < Layout::PATCH_HEAD {
        return false;
    }
    let n = blocks(patch_length);
    if most_blocks(size) < n {
        return false;
    }
    patch_length == Layout::slot_at(n as u32)
}

// Whether a full area may have this length beside a patch area of n blocks.
pub fn full_fits(size: u32, n: u32, full_length: usize) -> bool
    ensures { result ≡ full_fits size n full_length }
{
    if full_length == 0 {
        return true;
    }
    if full_length < Layout::FULL_HEAD {
        return false;
    }
    let m = pages(size, full_length);
    if (n as usize) < m {
        return false;
    }
    full_length == Layout::page_at(size, m as u32)
}

// Whether two areas may have these lengths.
pub fn lengths_fit(size: u32, patch_length: usize, full_length: usize) -> bool
    ensures { result ≡ (patch_fits size patch_length && full_fits size (blocks_in patch_length) full_length) }
{
    patch_fits(size, patch_length) && full_fits(size, blocks(patch_length) as u32, full_length)
}
