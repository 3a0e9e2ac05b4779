// What the program prints of its calls' answers. `told` and `compared` stand in `edges_areas` too: in `cases` they would be public, with a clause that
// each call of a closure is met, and `cases` would stand on `stream`.
use blockmap::Tallied;
use cases::say;
use entry_reader::{Found, Turn};
use layout::{Kind, Refusal, RefusedAt};
use payload::Sound;
use store::Judged;
use stream::Compared;

// Tells of an answer what `tell` tells of it, or why the call refuses.
fn told<T: Drop, F: FnOnce(T)>(answer: Result<T, Refusal>, tell: F)
    requires { F.IsAlwaysCallable tell }
{
    match answer {
        Ok(found) => tell(found),
        Err(refusal) => {
            say::refused(refusal);
        }
    }
}

pub(crate) fn compared(answer: Result<Compared, Refusal>) {
    told(answer, |found| {
        say::done(found.kind);
        say::number(found.length as u64);
        say::number(found.entries as u64);
        say::position(found.last);
    });
}

pub(crate) fn applied(answer: Result<Sound, RefusedAt>) {
    match answer {
        Ok(sound) => {
            say::number(0);
            say::number(sound.entries as u64);
            say::position(sound.last);
        }
        Err(refused) => {
            say::refused_at(refused.refusal, refused.offset);
        }
    }
}

// The number and whether there is an entry, then where the reader stands, then the value.
pub(crate) fn next(answer: Turn) {
    let (number, found, value) = match answer.found {
        Found::Entry { position: _, value } => (0, 1, value),
        Found::End => (0, 0, 0),
        Found::Stopped { offset: _ } => (u32::from(Refusal::Payload), 0, 0),
    };
    say::number(u64::from(number));
    say::number(found);
    say::number(answer.at as u64);
    say::position(answer.position);
    say::number(u64::from(value));
}

pub(crate) fn judged(answer: Result<Judged, Refusal>) {
    told(answer, |slot| {
        say::done(slot.kind);
        say::number(slot.length as u64);
    });
}

// Of the kind its pair.
pub(crate) fn looked(answer: Result<Kind, Refusal>) {
    told(answer, |kind| {
        say::number(0);
        say::number(u64::from(blockmap::pair_of(kind)));
    });
}

pub(crate) fn tallied(answer: Result<Tallied, Refusal>) {
    told(answer, |counted| {
        say::number(0);
        say::number(counted.patch as u64);
        say::number(counted.full as u64);
    });
}
