// What all calls on areas share, and Format, Judge and Show. Every call checks first and changes after: a refusal is decided before the
// first byte is written.
#![tactic(auto)]

pub mod areas;
pub mod block;
pub mod format;
pub mod frame;
pub mod judge;
pub mod show;

use layout::Kind;

// What Judge answers: the slot's kind and its payload's length. Carry out answers the same two of what it stored, by a type of its own: each call's
// answer goes by its name.
#[derive(Clone, Copy, PartialEq, Eq)]
pub struct Judged {
    pub kind: Kind,
    pub length: usize,
}

// A part of a patch area.
#[derive(Clone, Copy, PartialEq, Eq)]
pub struct Place {
    pub at: usize,
    pub len: usize,
}
