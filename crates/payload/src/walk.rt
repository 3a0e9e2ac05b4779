// The check of a payload's entries. Long ones are taken as they come and short ones together, as long as they can be.
ghost use Rattle.std.specs.Prelude.{◌≡◌, ◌+◌, ◌*◌, ◌≤◌, length, IfSome};
ghost use Rattle.layout.specs.Sizes.{room};
ghost use Rattle.payload.specs.Entries.{short_entry, long_entry};
ghost use Rattle.payload.specs.Steps.{farthest, reach, together, long_among, jumps_of, after_together, Passes, checked_numbers, check_numbers};

use crate::entry::{long_jump, step};
use crate::reached::Reached;
use crate::{Code, Sound, Step, Unsound};

// How many short entries are taken at a go, and the bytes that they take.
pub(crate) const TOGETHER: usize = 8;

pub(crate) const TOGETHER_WIDTH: usize = TOGETHER * Code::SHORT_WIDTH;

// Whether one of the entries that are taken together would start with a long code. No byte ends the loop, so that all are read at once.
fn long_among(payload: &[u8], place: usize) -> bool
    requires { place + short_entry * together ≤ length payload.now }
    ensures { result ≡ long_among payload.now place together }
{
    let mut seen = false;
    for i in 0..TOGETHER {
        seen |= payload[place + Code::SHORT_WIDTH * i] == Code::LONG;
    }
    seen
}

// The sum of their jumps, in a width that the compiler adds up at once.
fn jumps_of(payload: &[u8], place: usize) -> u16
    requires { place + short_entry * together ≤ length payload.now }
    ensures { result ≡ jumps_of payload.now place together }
{
    let mut sum = 0;
    for i in 0..TOGETHER {
        sum += u16::from(payload[place + Code::SHORT_WIDTH * i]);
    }
    sum
}

// The place after the last of the next short entries together, or none where they are cut off, not all short, or leave the page. Positions
// only grow, so that all are in the page if the last is. The first code is tested by itself: where long codes are many it mostly tells.
pub(crate) fn after_together(payload: &[u8], from: Reached, end: usize) -> Option<usize>
    requires { from.place ≤ length payload.now }
    ensures { result ≡ after_together end payload.now from.place from.next }
{
    if payload.len() - from.place < TOGETHER_WIDTH {
        return None;
    }
    if payload[from.place] == Code::LONG {
        return None;
    }
    if long_among(payload, from.place) {
        return None;
    }
    let next = from.next + TOGETHER + usize::from(jumps_of(payload, from.place));
    if end < next {
        return None;
    }
    Some(next)
}

// The place after the position of the next entry, if it is sound and has a long code: in payloads of many long codes quicker than the step.
fn after_long(payload: &[u8], from: Reached, end: usize) -> Option<usize>
    requires { from.place ≤ length payload.now }
    ensures { IfSome result (λ next. Passes end payload.now from.place from.next long_entry next) }
{
    if payload.len() - from.place < Code::LONG_WIDTH {
        return None;
    }
    if payload[from.place] != Code::LONG {
        return None;
    }
    let at = from.next + usize::from(long_jump(payload, from.place)?);
    if end <= at {
        return None;
    }
    Some(at + 1)
}

// The check of a payload that has a right length. Long entries are taken as they come and short ones together, as long as they can be; the
// step takes each other one, and finds the first that is unsound.
pub(crate) fn check_entries(payload: &[u8], size: usize) -> Result<Sound, Unsound>
    requires { (1 ≤ length payload.now) × (length payload.now ≤ room) }
    ensures { checked_numbers result ≡ check_numbers (reach size) payload.now }
{
    let end = size.min(Code::REACH);
    let mut reached = Reached::new(0, 0);
    let mut entries = 0;
    loop {
        if let Some(next) = after_long(payload, reached, end) {
            reached = Reached::new(reached.place + Code::LONG_WIDTH, next);
            entries += 1;
            continue;
        }
        if let Some(next) = after_together(payload, reached, end) {
            reached = Reached::new(reached.place + TOGETHER_WIDTH, next);
            entries += TOGETHER;
            continue;
        }
        let last = reached.last();
        match step(payload, reached.place, last, size) {
            Step::End => {
                return Ok(Sound { entries, last });
            }
            Step::Broken => {
                return Err(Unsound {
                    offset: reached.place,
                });
            }
            Step::Entry {
                position,
                value: _,
                next,
            } => {
                reached = Reached::new(next, (position as usize) + 1);
                entries += 1;
            }
        }
    }
}
