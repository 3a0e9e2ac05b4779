// Cut with a lent map: what Cut does, and then the pairs of the blocks that it dropped.
ghost use Rattle.layout.specs.Sizes.{page_size};
ghost use Rattle.cutting.specs.Mapped.{CutMapped};

use layout::Refusal;

// The slots, the places and the pairs of blocks k and up become zero. Unused pairs and later bytes of the map stay.
pub fn cut_mapped(
    patch: &mut [u8],
    full: &mut [u8],
    map: &mut [u8],
    k: usize,
) -> Result<(), Refusal>
    ensures { CutMapped page_size patch.old full.old map.old k result patch.new
        full.new map.new }
{
    let n = layout::area::blocks(patch.len());
    let needed = blockmap::map_bytes(n);
    crate::cut_with(needed <= map.len(), patch, full, k)?;
    blockmap::clear_pairs(map, k, n);
    Ok(())
}
