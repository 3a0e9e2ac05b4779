// The calls on a block map.
ghost use Rattle.layout.specs.Sizes.{page_size};
ghost use Rattle.thonxiliko.specs.Maps.{ThxLookUp, ThxTally};

use crate::{thx_pair, thx_tallied};

#[tactic(auto, using(crate::specs::MapLaws::look_up_held))]
#[unsafe(no_mangle)]
pub extern "C" fn thx_look_up(map: &[u8], n: u64, block: u64) -> thx_pair
    ensures { ThxLookUp page_size map.now n block result }
{
    blockmap::look_up(map, n as usize, block as usize).into()
}

#[tactic(auto, using(crate::specs::MapLaws::tally_held))]
#[unsafe(no_mangle)]
pub extern "C" fn thx_tally(map: &[u8], n: u64) -> thx_tallied
    ensures { ThxTally page_size map.now n result }
{
    blockmap::tally(map, n as usize).into()
}
