// Two areas that a call has opened to look at: every slot and every place lies in them.
ghost use Rattle.std.specs.Prelude.{◌≡◌, true, length};
ghost use Rattle.layout.specs.Lengths.{blocks_in, pages_in, patch_fits, full_fits};
ghost use Rattle.store.specs.Block.{Sized};

use crate::block;
use crate::frame::{self, Frame};
use layout::{Layout, Refusal};
use payload::Code;

#[derive(Clone, Copy)]
pub struct Areas<'a> {
    pub patch: &'a [u8],
    pub full: &'a [u8],
    pub frame: Frame,
    pub ghost sized: { Sized frame.size },
    pub ghost blocks: { frame.n ≡ blocks_in (length patch.now) },
    pub ghost places: { frame.m ≡ pages_in frame.size (length full.now) },
    pub ghost patch_fit: { patch_fits frame.size (length patch.now) ≡ true },
    pub ghost full_fit: { full_fits frame.size (blocks_in (length patch.now)) (length full.now) ≡ true },
}

impl<'a> Areas<'a> {
    ghost use Rattle.std.specs.Prelude.{◌≡◌, ◌<◌, ◌≤◌, length, IfSome, IfNone, IfOk, Err};
    ghost use Rattle.store.specs.Block.{slot_of, place_of};
    ghost use Rattle.layout.specs.declared.Refusal.TheVariants.{Length};
    ghost use Rattle.store.specs.Open.{open_numbers};
    ghost use Rattle.store.specs.Opened.{areas_numbers};

    // Opens both areas of pages of this size, told whether the call's pages and its buffer have the lengths that they must have. No page has another
    // size than one that entries reach: then no length fits.
    pub fn open(
        size: u32,
        pages_fit: bool,
        buffer_fits: bool,
        patch: &'a [u8],
        full: &'a [u8],
    ) -> Result<Areas<'a>, Refusal>
        ensures numbers { Sized size → areas_numbers result ≡ open_numbers size pages_fit buffer_fits patch.now full.now }
        ensures other { (Sized size → ⊥) → result ≡ Err Length }
        ensures lent { IfOk result (λ areas. (areas.patch ≡ patch.entry) × (areas.full ≡ full.entry)) }
    {
        if size == 0 || Code::REACH < size as usize {
            return Err(Refusal::Length);
        }
        let frame = frame::open(size, pages_fit, buffer_fits, patch, full)?;
        Ok(Areas { patch, full, frame })
    }

    // A block's slot.
    pub fn slot(self, block: u32) -> &'a [u8]
        ensures { result.now ≡ slot_of self.entry.patch.now block }
    {
        block::slot(self.patch, block)
    }

    // A block's place in the full area; one not below m has none.
    pub fn place(self, block: u32) -> Option<&'a [u8]>
        ensures some { IfSome result (λ place. (block < self.entry.frame.m)
            × (place.now ≡ place_of self.entry.frame.size self.entry.full.now block) × (length place.now ≡ self.entry.frame.size)) }
        ensures none { IfNone result (self.entry.frame.m ≤ block) }
    {
        let Frame { size, m, .. } = self.frame;
        if m <= block {
            return None;
        }
        Some(span::part(self.full, Layout::page_at(size, block), size as usize))
    }
}
