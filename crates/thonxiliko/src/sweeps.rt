// The call that clears what stopped writes left in the full area.
ghost use Rattle.layout.specs.Sizes.{page_size};
ghost use Rattle.thonxiliko.specs.Sweeps.{ThxSweep};

use crate::thx_done;

#[tactic(auto, using(crate::specs::SweepLaws::sweep_held))]
#[unsafe(no_mangle)]
pub extern "C" fn thx_sweep(patch: &[u8], full: &mut [u8]) -> thx_done
    ensures { ThxSweep page_size patch.now full.old result full.new }
{
    sweeping::sweep(patch, full).into()
}
