// What the program prints of its calls' answers. `told` and `compared` stand in `edges` too: in `cases` they would be public, with a clause that
// each call of a closure is met, and `cases` would stand on `stream`.
use building::RefusedIn;
use carrying::Written;
use cases::say;
use layout::{Kind, Refusal, RefusedAt};
use stream::Compared;

// Tells of an answer what `tell` tells of it, or why the call refuses.
fn told<T: Drop, F: FnOnce(T)>(answer: Result<T, Refusal>, tell: F)
    requires { F.IsAlwaysCallable tell }
{
    match answer {
        Ok(found) => tell(found),
        Err(refusal) => {
            say::refused(refusal);
        }
    }
}

// Of a call that answers its number alone.
pub(crate) fn number(answer: Result<(), Refusal>) {
    told(answer, |()| {
        say::number(0);
    });
}

pub(crate) fn reading(answer: Result<Kind, RefusedAt>) {
    match answer {
        Ok(kind) => {
            say::done(kind);
        }
        Err(refused) => {
            say::refused_at(refused.refusal, refused.offset);
        }
    }
}

pub(crate) fn compared(answer: Result<Compared, Refusal>) {
    told(answer, |found| {
        say::done(found.kind);
        say::number(found.length as u64);
        say::number(found.entries as u64);
        say::position(found.last);
    });
}

pub(crate) fn written(answer: Result<Written, Refusal>) {
    told(answer, |stored| {
        say::done(stored.kind);
        say::number(stored.length as u64);
    });
}

pub(crate) fn built(answer: Result<(), RefusedIn>) {
    match answer {
        Ok(()) => {
            say::number(0);
            say::number(0);
            say::number(0);
        }
        Err(refused) => {
            say::refused(refused.refusal);
            say::number(refused.block as u64);
            say::number(refused.offset as u64);
        }
    }
}

pub(crate) fn extent(answer: Result<usize, Refusal>) {
    told(answer, |blocks| {
        say::number(0);
        say::number(blocks as u64);
    });
}

// The first bytes, at most eight, in hexadecimal.
pub(crate) fn first_bytes(bytes: &[u8]) {
    say::text(b" ");
    for byte in bytes.iter().take(8) {
        io::print_hex(say::STDOUT, u64::from(*byte), 2);
    }
}
