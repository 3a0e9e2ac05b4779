// The three sound slots: told apart, and written.
#![tactic(auto)]

ghost use Rattle.std.specs.Prelude.{◌≡◌, cond, ◌&&◌, ◌-◌, ◌≤◌, eqb, leb, length, get_or, Some, None};
ghost use Rattle.span.specs.Bytes.{zeros, part, same};
ghost use Rattle.layout.specs.Sizes.{slot_size, room};
ghost use Rattle.layout.specs.Numbers.{kind_number};
ghost use Rattle.slots.specs.Slots.{patch_slot, is_patch, payload_length, slot_numbers, state_numbers, slot_image};

use layout::{Kind, Layout, Refusal};

// What a sound slot is: PATCH with its payload's length.
#[derive(Clone, Copy, PartialEq, Eq)]
pub enum SlotState {
    Empty,
    Patch(usize),
    Full,
}

// The payload's length that a slot's bytes give, whatever they are.
fn stored_length(slot: &[u8]) -> usize
    requires { length slot.now ≡ slot_size }
    ensures { result ≡ payload_length slot.now }
{
    let size = u16::from_le_bytes([slot[Layout::LENGTH_AT], slot[Layout::LENGTH_AT + 1]]);
    size as usize
}

// The payload's length of a sound PATCH slot: of 512 bytes of kind 1. Inlined with `slot_state`: where it was called, a scan of slots whose payloads fill
// them took up to 1.4 times as long.
#[inline(always)]
fn patch_length(slot: &[u8]) -> Option<usize>
    requires { (length slot.now ≡ slot_size) × (get_or slot.now 0 0 ≡ 1) }
    ensures { result ≡ cond (is_patch slot.now) (Some (payload_length slot.now)) None }
{
    let n = stored_length(slot);
    if n == 0 || Layout::ROOM < n {
        return None;
    }
    let sound = slot[Layout::SLOT_FLAGS_AT] == Layout::PATCH_FLAGS
        && span::zero_part(
            slot,
            Layout::RESERVED_AT,
            Layout::PAYLOAD_AT - Layout::RESERVED_AT,
        )
        && span::zero_part(slot, Layout::PAYLOAD_AT + n, Layout::ROOM - n);
    sound.then_some(n)
}

// Whether every byte after the kind is zero.
fn rest_is_zero(slot: &[u8]) -> bool
    ensures { result ≡ same (part 1 (slot_size - 1) slot.now) (zeros (slot_size - 1)) }
{
    span::zero_part(
        slot,
        Layout::SLOT_FLAGS_AT,
        Layout::SLOT - Layout::SLOT_FLAGS_AT,
    )
}

// What a slot is. Entries are not looked at.
// Inlined: a Result as large as this goes back by memory, and calls that look at every slot took up to 1.14 times as long.
#[inline(always)]
#[tactic(auto, using(crate::specs::SlotLaws::slot_short, crate::specs::SlotLaws::slot_unknown))]
pub fn slot_state(slot: &[u8]) -> Result<SlotState, Refusal>
    ensures { state_numbers result ≡ slot_numbers slot.now }
{
    if slot.len() != Layout::SLOT {
        return Err(Refusal::Slot);
    }
    let state = match Kind::try_from(u32::from(slot[Layout::KIND_AT]))? {
        Kind::Empty => rest_is_zero(slot).then_some(SlotState::Empty),
        Kind::Patch => patch_length(slot).map(SlotState::Patch),
        Kind::Full => rest_is_zero(slot).then_some(SlotState::Full),
    };
    state.ok_or(Refusal::Slot)
}

// The payload's length of a sound PATCH slot.
#[tactic(auto, using(crate::specs::SlotLaws::other_length_none))]
pub fn payload_length(slot: &[u8]) -> Option<usize>
    ensures { result ≡ cond (is_patch slot.now) (Some (payload_length slot.now)) None }
{
    // Arm by arm: under `_` nothing is known of what the state is not.
    match slot_state(slot) {
        Ok(SlotState::Patch(n)) => Some(n),
        Ok(SlotState::Empty) => None,
        Ok(SlotState::Full) => None,
        Err(_) => None,
    }
}

// Kind, flags, payload length, and the payload; every other byte zero.
fn write_patch(slot: &mut [u8], payload: &[u8])
    requires { (length slot.old ≡ slot_size) × (length payload.now ≤ room) }
    ensures { slot.new ≡ patch_slot payload.now }
{
    let n = payload.len();
    span::fill(slot);
    slot[Layout::KIND_AT] = Layout::PATCH_KIND;
    slot[Layout::SLOT_FLAGS_AT] = Layout::PATCH_FLAGS;
    let [low, high] = (n as u16).to_le_bytes();
    slot[Layout::LENGTH_AT] = low;
    slot[Layout::LENGTH_AT + 1] = high;
    let end = Layout::PAYLOAD_AT + n;
    span::copy(&mut slot[Layout::PAYLOAD_AT..end], payload);
}

// The sound slot of a kind, over whatever stood there. Only what is a slot, and a payload that fits, is touched.
#[tactic(auto, using(crate::specs::SlotLaws::full_laid), unfolding(crate::specs::Slots::slot_image, crate::specs::Slots::empty_slot))]
pub fn put_slot(slot: &mut [u8], kind: Kind, payload: &[u8])
    ensures { slot.new ≡ cond (eqb (length slot.old) slot_size && leb (length payload.now) room)
        (slot_image (kind_number kind) payload.now) slot.old }
{
    if slot.len() != Layout::SLOT {
        return;
    }
    if Layout::ROOM < payload.len() {
        return;
    }
    match kind {
        Kind::Empty => span::fill(slot),
        Kind::Patch => write_patch(slot, payload),
        Kind::Full => {
            span::fill(slot);
            slot[Layout::KIND_AT] = Layout::FULL_KIND;
        }
    }
}
