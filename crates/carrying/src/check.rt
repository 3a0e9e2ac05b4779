// The check of a decision on a block below n. The page is looked at only for FULL_REF, and the payload only for PATCH.
ghost use Rattle.std.specs.Prelude.{◌≡◌, not, ◌&&◌, eqb, length};
ghost use Rattle.layout.specs.Sizes.{full_kind};
ghost use Rattle.layout.specs.Numbers.{kind_number};
ghost use Rattle.store.specs.Block.{Sized};
ghost use Rattle.carrying.specs.Parts.{decision_asked, PayloadChecked, DecisionChecked};

use crate::decision::{Asked, Stored};
use layout::{Kind, Layout, Refusal};
use store::frame::Frame;

// Whether the page of a FULL_REF has the size. No other is looked at.
pub(crate) fn page_fits(size: u32, asked: Asked) -> bool
    ensures { not result ≡ (eqb asked.entry.kind full_kind && not (eqb (length asked.entry.page.now) size)) }
{
    asked.kind != u32::from(Kind::Full) || asked.page.len() == size as usize
}

// What is stored of a payload: for PATCH all of it, if it is sound, else nothing.
fn stored_payload(size: u32, kind: Kind, payload: &[u8]) -> Result<&[u8], Refusal>
    requires { Sized size }
    ensures { PayloadChecked size (kind_number kind) payload.now result }
{
    if kind != Kind::Patch {
        return Ok(&[]);
    }
    payload::check(payload, size as usize)?;
    Ok(payload)
}

// What is stored of a decision for a block below n, or what is wrong with it first.
pub(crate) fn check_decision(
    frame: Frame,
    block: u32,
    asked: Asked<'_>,
) -> Result<Stored<'_>, Refusal>
    requires { Sized frame.size }
    ensures { DecisionChecked frame.size frame.m block (decision_asked asked.entry) result }
{
    let kind = Kind::try_from(asked.kind)?;
    if kind == Kind::Full && frame.m <= block {
        return Err(Refusal::FullPage);
    }
    let payload = stored_payload(frame.size, kind, asked.payload)?;
    Ok(Stored {
        kind,
        payload,
        page: asked.page,
    })
}
