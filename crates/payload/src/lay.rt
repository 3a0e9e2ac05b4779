// Entries laid over a page: short ones together as long as they can be, and then those of one code in a loop of their own. The loops step by an
// entry's width and end where an entry does not fit, so they count no index. The page is lent to be written, so that its length is a clause of each.
ghost use Rattle.std.specs.Prelude.{◌≡◌, ◌+◌, ◌*◌, ◌≤◌, length, IsSome, IfSome};
ghost use Rattle.payload.specs.Entries.{short_entry, long_code, payload_stream, applied};
ghost use Rattle.payload.specs.Steps.{farthest, together, after_together, Lays, LaysTo, code_at, Over};

use crate::Code;
use crate::entry::jump_or_out;
use crate::reached::Reached;
use crate::walk::{TOGETHER, TOGETHER_WIDTH, after_together};

// Lays the short entries that are known to stay in the page: no test is left.
fn lay_each(page: &mut [u8], payload: &[u8], from: Reached)
    requires { (length page.old ≤ farthest) × IsSome (after_together (length page.old) payload.now from.place from.next) }
    ensures { IfSome (after_together (length page.old) payload.now from.place from.next)
        (λ next. LaysTo (length page.old) payload.now page.old from page.new (from.place + short_entry * together) next) }
{
    let mut next = from.next;
    for i in 0..TOGETHER {
        let first = from.place + Code::SHORT_WIDTH * i;
        let at = next + usize::from(payload[first]);
        page[at] = payload[first + 1];
        next = at + 1;
    }
}

// Lays the short entries that come next, as long as enough of them can be taken together.
fn lay_together(page: &mut [u8], payload: &[u8], from: Reached) -> Reached
    requires { (length page.old ≤ farthest) × (from.place ≤ length payload.now) }
    ensures { Lays (length page.old) payload.now page.old from page.new result }
{
    let mut reached = from;
    while let Some(next) = after_together(payload, reached, page.len()) {
        lay_each(page, payload, reached);
        reached = Reached::new(reached.place + TOGETHER_WIDTH, next);
    }
    reached
}

// Lays the short entries that come next. In a loop of their own no entry waits for the width of the one before.
fn lay_shorts(page: &mut [u8], payload: &[u8], from: Reached) -> Reached
    requires { (length page.old ≤ farthest) × (from.place ≤ length payload.now) }
    ensures { Lays (length page.old) payload.now page.old from page.new result
        × ((code_at payload.now result ≡ long_code → ⊥) → Over (length page.old) payload.now result) }
{
    let mut reached = from;
    // The last byte begins no entry, so that one test finds an entry cut off.
    let last = payload.len().saturating_sub(1);
    while reached.place < last {
        let first = payload[reached.place];
        if first == Code::LONG {
            break;
        }
        let at = reached.next + usize::from(first);
        if page.len() <= at {
            break;
        }
        page[at] = payload[reached.place + 1];
        reached = Reached::new(reached.place + Code::SHORT_WIDTH, at + 1);
    }
    reached
}

// Lays the long entries that come next.
fn lay_longs(page: &mut [u8], payload: &[u8], from: Reached) -> Reached
    requires { (length page.old ≤ farthest) × (from.place ≤ length payload.now) }
    ensures { Lays (length page.old) payload.now page.old from page.new result
        × (code_at payload.now result ≡ long_code → Over (length page.old) payload.now result) }
{
    let mut reached = from;
    while reached.place < payload.len() {
        if payload[reached.place] != Code::LONG {
            break;
        }
        let at = reached.next + jump_or_out(payload, reached.place);
        if page.len() <= at {
            break;
        }
        page[at] = payload[reached.place + 3];
        reached = Reached::new(reached.place + Code::LONG_WIDTH, at + 1);
    }
    reached
}

// Writes each entry's value at its place, up to the payload's end or the first entry that is broken.
pub(crate) fn lay(page: &mut [u8], payload: &[u8])
    requires { length page.old ≤ farthest }
    ensures { page.new ≡ applied page.old (payload_stream (length page.old) payload.now) }
{
    let mut reached = Reached::new(0, 0);
    loop {
        let many = lay_together(page, payload, reached);
        let short = lay_shorts(page, payload, many);
        let long = lay_longs(page, payload, short);
        if long.place == reached.place {
            return;
        }
        reached = long;
    }
}
