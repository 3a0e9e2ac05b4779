// The calls on pages and payloads.
ghost use Rattle.layout.specs.Sizes.{page_size};
ghost use Rattle.thonxiliko.specs.Pages.{ThxCompare, ThxApply, ThxNext};

use crate::{thx_applied, thx_compared, thx_entry};
use layout::Layout;

#[tactic(auto, using(crate::specs::PageLaws::compare_held))]
#[unsafe(no_mangle)]
pub extern "C" fn thx_compare(base: &[u8], page: &[u8], payload: &mut [u8]) -> thx_compared
    ensures { ThxCompare page_size base.now page.now payload.old result payload.new }
{
    thx_compared::of(stream::compare(base, page, payload))
}

#[tactic(auto, using(crate::specs::PageLaws::apply_held))]
#[unsafe(no_mangle)]
pub extern "C" fn thx_apply(base: &[u8], payload: &[u8], page: &mut [u8]) -> thx_applied
    ensures { ThxApply page_size base.now payload.now page.old result page.new }
{
    thx_applied::of(stream::apply(base, payload, page))
}

#[tactic(auto, using(crate::specs::PageLaws::next_held))]
#[unsafe(no_mangle)]
pub extern "C" fn thx_next(payload: &[u8], at: u64, position: i32) -> thx_entry
    ensures { ThxNext page_size payload.now at position result }
{
    entry_reader::step_at(payload, Layout::PAGE, at as usize, position).into()
}
