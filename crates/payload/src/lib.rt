// The reader's side of the stream: a payload's entries, one by one, checked as a whole, and laid over a page.
#![tactic(auto)]

pub mod entry;
mod lay;
mod reached;
mod refusal;
mod walk;

ghost use Rattle.std.specs.Prelude.{◌≡◌, length};
ghost use Rattle.payload.specs.Entries.{long_code, long_from, short_entry, long_entry, payload_stream, applied};
ghost use Rattle.payload.specs.Steps.{farthest, reach, checked_numbers, check_numbers};

use layout::Layout;

// What stands next in a payload: nothing more, an unsound entry, or an entry's place and value, and where the payload goes on after it. Three cases
// of one rank, so no Option in a Result.
#[derive(Clone, Copy)]
pub enum Step {
    End,
    Broken,
    Entry {
        position: i32,
        value: u8,
        next: usize,
    },
}

// The numbers of a sound payload: how many entries it has, and the last position.
#[derive(Clone, Copy, PartialEq, Eq)]
pub struct Sound {
    pub entries: usize,
    pub last: i32,
}

// Where the first unsound entry of a payload starts: 0 if there are no bytes or too many.
#[derive(Clone, Copy, PartialEq, Eq)]
pub struct Unsound {
    pub offset: usize,
}

// The numbers of the stream's codes, each once.
#[derive(Clone, Copy)]
pub struct Code;

impl Code {
    // The first byte of an entry with a 16-bit jump, the least jump that it is for, and how many bytes an entry takes.
    pub const LONG: u8 = 255;

    pub const LONG_FROM: u16 = 255;

    pub const SHORT_WIDTH: usize = 2;

    pub const LONG_WIDTH: usize = 4;
    // The most bytes of a page that 16-bit jumps are made for.
    pub const REACH: usize = 65536;

    // The code's numbers are the definitions'.
    pub fn agrees()
        ensures long { Code.LONG ≡ long_code }
        ensures long_from { Code.LONG_FROM ≡ long_from }
        ensures short_width { Code.SHORT_WIDTH ≡ short_entry }
        ensures long_width { Code.LONG_WIDTH ≡ long_entry }
        ensures reach { Code.REACH ≡ farthest }
    {}
}

// Whether a payload is sound in a page of this size, its number of entries and its last position, or where it breaks.
pub fn check(payload: &[u8], size: usize) -> Result<Sound, Unsound>
    ensures { checked_numbers result ≡ check_numbers (reach size) payload.now }
{
    if payload.is_empty() || Layout::ROOM < payload.len() {
        return Err(Unsound { offset: 0 });
    }
    walk::check_entries(payload, size)
}

// Writes each entry's value at its place, up to the payload's end or the first entry that is broken.
pub fn overlay(page: &mut [u8], payload: &[u8])
    ensures { page.new
        ≡ applied page.old (payload_stream (reach (length page.old)) payload.now) }
{
    let end = page.len().min(Code::REACH);
    lay::lay(&mut page[..end], payload);
}
