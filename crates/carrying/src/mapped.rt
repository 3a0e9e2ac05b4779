// Carry out with a lent map: the same on both areas, and then, where all stores are told, the block's own pair.
ghost use Rattle.std.specs.Prelude.{◌≡◌, cond};
ghost use Rattle.layout.specs.Sizes.{page_size};
ghost use Rattle.layout.specs.Numbers.{kind_number};
ghost use Rattle.blockmap.specs.Pack.{pair_of, set_pair};
ghost use Rattle.carrying.specs.Puts.{told_all};
ghost use Rattle.carrying.specs.Mapped.{CarryOutMapped};

use crate::Written;
use crate::decision::Asked;
use layout::{Kind, Refusal};

// The block's pair, if all stores were made.
fn keep_pair(map: &mut [u8], block: usize, kind: Kind, stores: usize)
    ensures { map.new ≡ cond (told_all stores) (set_pair map.old block (pair_of (kind_number kind)))
        map.old }
{
    if 1 < stores {
        blockmap::set_pair(map, block, blockmap::pair_of(kind));
    }
}

// Stores a decision at a block, and sets the block's pair where all stores are told. No other pair is looked at or changed.
pub fn carry_out_mapped(
    patch: &mut [u8],
    full: &mut [u8],
    map: &mut [u8],
    block: usize,
    kind: u32,
    payload: &[u8],
    page: &[u8],
    stores: usize,
) -> Result<Written, Refusal>
    ensures { CarryOutMapped page_size patch.old full.old map.old block
        (record { kind = kind; payload = payload.now; page = page.now }) stores result patch.new full.new
        map.new }
{
    let map_fits = blockmap::map_bytes(layout::area::blocks(patch.len())) <= map.len();
    let asked = Asked {
        kind,
        payload,
        page,
    };
    let written = crate::carry_with(map_fits, patch, full, block, asked, stores)?;
    keep_pair(map, block, written.kind, stores);
    Ok(written)
}
