// The entry reader: a payload and a place in it, moved one entry at a time. The two functions over the reader are thin, and `step_at`
// does the work on a slice and numbers.
#![tactic(auto)]

ghost use Rattle.std.specs.Prelude.{◌≡◌};
ghost use Rattle.payload.specs.Steps.{reach};
ghost use Rattle.entry_reader.specs.Turns.{stands as stands_in, Turned};
ghost use Rattle.entry_reader.specs.Reader.{opened, turned, moved};

use layout::Layout;
use payload::{Code, Step};

// What a step finds: an entry's position and value, the payload's end, or no sound entry at this offset. Three cases of one rank, so no Option in a
// Result.
#[derive(Clone, Copy)]
pub enum Found {
    Entry { position: i32, value: u8 },
    End,
    Stopped { offset: usize },
}

// What a step finds, and where the reader stands after it: at the next entry, or where it stood.
#[derive(Clone, Copy)]
pub struct Turn {
    pub found: Found,
    pub at: usize,
    pub position: i32,
}

// A payload, the size of the pages that it is for, and the place in it: an offset and the position before it.
#[derive(Clone, Copy)]
pub struct EntryReader<'a> {
    payload: &'a [u8],
    size: usize,
    at: usize,
    position: i32,
}

// Whether a reader can stand at this position: -1, before the page's first byte, or a place in the page.
fn stands(position: i32, size: usize) -> bool
    ensures { result ≡ stands_in (reach size) position }
{
    // The place after it, so that -1 is no case of its own: from 0 to the page's size.
    let Ok(next) = usize::try_from(payload::entry::moved(position, 1)) else {
        return false;
    };
    next <= size.min(Code::REACH)
}

// The entry at a place of a payload, read from this position in a page of this size.
pub fn step_at(payload: &[u8], size: usize, at: usize, position: i32) -> Turn
    ensures { Turned (reach size) payload.now at position result }
{
    // Where there is no entry, the reader stays.
    let stopped = Turn {
        found: Found::Stopped { offset: at },
        at,
        position,
    };
    let ended = Turn {
        found: Found::End,
        at,
        position,
    };
    if payload.is_empty() || Layout::ROOM < payload.len() {
        return stopped;
    }
    if payload.len() <= at {
        return ended;
    }
    if !stands(position, size) {
        return stopped;
    }
    match payload::entry::step(payload, at, position, size) {
        Step::End => ended,
        Step::Broken => stopped,
        Step::Entry {
            position: to,
            value,
            next,
        } => Turn {
            found: Found::Entry {
                position: to,
                value,
            },
            at: next,
            position: to,
        },
    }
}

// A reader at the beginning of a payload.
pub fn entries<'a>(payload: &'a [u8]) -> EntryReader<'a>
    ensures { result ≡ opened payload.entry }
{
    EntryReader {
        payload,
        size: Layout::PAGE,
        at: 0,
        position: -1,
    }
}

// No Iterator: the end and a stop are told again at each call, and a stop tells its offset, for which a None has no place.
impl EntryReader<'_> {
    // Moves the reader on by one entry. At the payload's end, and where it stopped, it stays and says so again.
    pub fn next(&mut self) -> Found
        ensures { (result ≡ (turned self.old).found) × (self.new ≡ moved self.old) }
    {
        let turn = step_at(self.payload, self.size, self.at, self.position);
        self.at = turn.at;
        self.position = turn.position;
        turn.found
    }
}
