// The writer's stream of two pages.
#![tactic(auto)]

mod count;
mod pages;
mod spell;
mod words;

ghost use Rattle.std.specs.Prelude.{◌≡◌, ◌≤◌};
ghost use Rattle.payload.specs.Steps.{farthest};
ghost use Rattle.writer.specs.Steps.{before, near, Differs};

use crate::pages::Pages;

// The writer's stream of two pages: its length, its number of entries, and the last differing position.
#[derive(Clone, Copy)]
pub struct Difference {
    pub length: usize,
    pub entries: usize,
    pub last: i32,
}

// What is known after some differences: how many bytes and entries they take, and the place after the last of them. That it is so of two pages stays a
// clause of the pieces that have both: as a field it would need the pages here.
#[derive(Clone, Copy, Default)]
struct Spelled {
    used: usize,
    entries: usize,
    next: usize,
}

impl Spelled {
    // What is known where there is no difference more.
    fn found(self) -> Difference
        requires { self.next ≤ farthest }
        ensures { (result.length ≡ self.used) × (result.entries ≡ self.entries) × (result.last ≡ before self.next) }
    {
        Difference {
            length: self.used,
            entries: self.entries,
            last: (self.next as i32) - 1,
        }
    }
}

// The writer's stream of a page against its base. It is stored as far as there is room, and its numbers are those of the whole.
pub fn stream_of(base: &[u8], page: &[u8], room: &mut [u8]) -> Difference
    ensures { Differs base.now (near page.now) room.old result room.new }
{
    Pages::of(base, page).stream(room)
}
