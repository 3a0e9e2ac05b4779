// Carry out a decision (kind, payload, page) on a block, in at most two whole stores. Compare decides; this stores. No base is looked at, and
// nothing of what stood there.
#![tactic(auto)]

mod check;
mod decision;
pub mod mapped;
mod stores;

ghost use Rattle.std.specs.Prelude.{◌≡◌};
ghost use Rattle.layout.specs.Sizes.{page_size};
ghost use Rattle.carrying.specs.Parts.{decision_asked, Lent, BlockCarry, CarryWith};
ghost use Rattle.carrying.specs.CarryOut.{CarryOut};

use decision::Asked;
use layout::{Kind, Layout, Refusal};
use store::frame::Frame;

// What carrying out answers: the kind stored, and the length of the payload stored, 0 unless it is a patch.
#[derive(Clone, Copy, PartialEq, Eq)]
pub struct Written {
    pub kind: Kind,
    pub length: usize,
}

// Carries out a decision on a block below n.
fn carry_block(
    frame: Frame,
    patch: &mut [u8],
    full: &mut [u8],
    block: u32,
    asked: Asked,
    stores: usize,
) -> Result<Written, Refusal>
    requires { Lent frame.size frame.m patch.old full.old block (decision_asked asked) }
    ensures { BlockCarry frame.size patch.old full.old block (decision_asked asked.entry) stores result patch.new full.new }
{
    let stored = check::check_decision(frame, block, asked)?;
    stores::store_first(stores, frame, patch, full, block, stored);
    Ok(Written {
        kind: stored.kind,
        length: stored.payload.len(),
    })
}

// Carries out a decision, told whether the call's buffer has the length that it must have.
pub(crate) fn carry_with(
    buffer_fits: bool,
    patch: &mut [u8],
    full: &mut [u8],
    block: usize,
    asked: Asked,
    stores: usize,
) -> Result<Written, Refusal>
    ensures { CarryWith page_size buffer_fits patch.old full.old block (decision_asked asked.entry) stores result
        patch.new full.new }
{
    let size = Layout::PAGE as u32;
    let page_fits = check::page_fits(size, asked);
    let frame = store::frame::open(size, page_fits, buffer_fits, patch, full)?;
    if frame.n as usize <= block {
        return Err(Refusal::Block);
    }
    carry_block(frame, patch, full, block as u32, asked, stores)
}

// Stores a decision at a block: its slot, and its place in the full area if there is one. It is told how many stores to make: 0, 1, or any
// other number for all, as the C interface tells it. Refusals and answer are the same whatever it is told.
pub fn carry_out(
    patch: &mut [u8],
    full: &mut [u8],
    block: usize,
    kind: u32,
    payload: &[u8],
    page: &[u8],
    stores: usize,
) -> Result<Written, Refusal>
    ensures { CarryOut page_size patch.old full.old block
        (record { kind = kind; payload = payload.now; page = page.now }) stores result patch.new full.new }
{
    let asked = Asked {
        kind,
        payload,
        page,
    };
    carry_with(true, patch, full, block, asked, stores)
}
