// The C interface. Each exported function calls the proved call beneath it and gives its answer as the paper's numbers.
#![tactic(auto)]

mod answers;
pub mod areas;
pub mod cuts;
pub mod map;
pub mod mapped;
pub mod pages;
pub mod sweeps;

// What Format, Cut and Sweep answer.
#[repr(C)]
#[derive(Clone, Copy)]
pub struct thx_done {
    pub number: u32,
}

// What Compare answers.
#[repr(C)]
#[derive(Clone, Copy)]
pub struct thx_compared {
    pub number: u32,
    pub kind: u32,
    pub length: u32,
    pub entries: u32,
    pub last: i32,
}

// What Apply answers.
#[repr(C)]
#[derive(Clone, Copy)]
pub struct thx_applied {
    pub number: u32,
    pub entries: u32,
    pub last: i32,
    pub offset: u32,
}

// What a step of the entry reader answers: with an entry, where the reader stands after it; without one, where it stood.
#[repr(C)]
#[derive(Clone, Copy)]
pub struct thx_entry {
    pub number: u32,
    pub found: u32,
    pub at: u64,
    pub position: i32,
    pub value: u32,
}

// What Judge answers. `thx_written` has the same members: in C each call's answer goes by its own name.
#[repr(C)]
#[derive(Clone, Copy)]
pub struct thx_judged {
    pub number: u32,
    pub kind: u32,
    pub length: u32,
}

// The part of the patch area that Show names: both 0 for an empty one.
#[repr(C)]
#[derive(Clone, Copy)]
pub struct thx_part {
    pub at: u64,
    pub len: u64,
}

// What Read answers.
#[repr(C)]
#[derive(Clone, Copy)]
pub struct thx_reading {
    pub number: u32,
    pub kind: u32,
    pub offset: u32,
}

// What Carry out answers.
#[repr(C)]
#[derive(Clone, Copy)]
pub struct thx_written {
    pub number: u32,
    pub kind: u32,
    pub length: u32,
}

// What Build answers.
#[repr(C)]
#[derive(Clone, Copy)]
pub struct thx_built {
    pub number: u32,
    pub block: u64,
    pub offset: u32,
}

// What Look up answers.
#[repr(C)]
#[derive(Clone, Copy)]
pub struct thx_pair {
    pub number: u32,
    pub pair: u32,
}

// What Tally answers.
#[repr(C)]
#[derive(Clone, Copy)]
pub struct thx_tallied {
    pub number: u32,
    pub patch: u64,
    pub full: u64,
}

// What Highest answers.
#[repr(C)]
#[derive(Clone, Copy)]
pub struct thx_extent {
    pub number: u32,
    pub blocks: u64,
}
