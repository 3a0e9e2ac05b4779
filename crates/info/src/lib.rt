// What `slotinfo` tells of the bytes that it read.
#![tactic(auto)]

pub mod text;

ghost use Rattle.std.specs.Prelude.{◌≡◌, negsuc};
ghost use Rattle.layout.specs.Sizes.{page_size};
ghost use Rattle.info.specs.Info.{Inspect};

use layout::{Kind, Layout, Refusal};
use slots::SlotState;

// A slot's kind, its payload's length, its number of entries and its last position: -1 where it has no entry.
#[derive(Clone, Copy, PartialEq, Eq)]
pub struct Info {
    pub kind: Kind,
    pub length: usize,
    pub entries: usize,
    pub last: i32,
}

// What is told of a slot that has no payload.
fn bare(kind: Kind) -> Info
    ensures { result ≡ record { kind = kind; length = 0; entries = 0; last = negsuc 0 } }
{
    Info {
        kind,
        length: 0,
        entries: 0,
        last: -1,
    }
}

// All that is decided about the bytes of one slot.
pub fn inspect(bytes: &[u8]) -> Result<Info, Refusal>
    ensures { Inspect page_size bytes.now result }
{
    if bytes.len() != Layout::SLOT {
        return Err(Refusal::Length);
    }
    match slots::slot_state(bytes)? {
        SlotState::Empty => Ok(bare(Kind::Empty)),
        SlotState::Full => Ok(bare(Kind::Full)),
        SlotState::Patch(length) => {
            let payload = span::part(bytes, Layout::PAYLOAD_AT, length);
            match payload::check(payload, Layout::PAGE) {
                Ok(sound) => Ok(Info {
                    kind: Kind::Patch,
                    length,
                    entries: sound.entries,
                    last: sound.last,
                }),
                Err(_) => Err(Refusal::Payload),
            }
        }
    }
}
