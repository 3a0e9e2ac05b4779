// Where two slices differ: the next place, the next chunk, how many places of a chunk, and whether any. The loops are shaped so that the
// compiler turns them into wide instructions: no loop leaves early at a byte, but `next_byte`, which looks at fewer than eight, and
// `after_last`, which looks at one chunk.
#![tactic(auto)]

ghost use Rattle.std.specs.Prelude.{◌≡◌, true, false, ◌+◌, ◌-◌, ◌≤◌, min, length};
ghost use Rattle.span.specs.Bytes.{part as part_of, same as same_bytes};
ghost use Rattle.differ.specs.Differ.{chunk, stride, next_diff, diffs_in, Same, NextChunk, after_last, has_chunk, chunk_diffs, chunk_after};

// The grids on which two pages are compared.
#[derive(Clone, Copy)]
pub struct Grid;

impl Grid {
    // How many bytes are compared at one go where pages are alike: eight registers of 16 bytes, or four of 32.
    pub const STRIDE: usize = 128;

    // How many are counted at one go. Of four such chunks in a row the first and the last are still within a byte's reach.
    pub const CHUNK: usize = 64;

    // The code's numbers are the definitions'.
    pub fn agrees()
        ensures stride { Grid.STRIDE ≡ stride }
        ensures chunk { Grid.CHUNK ≡ chunk }
    {}
}

const WORD: usize = 8;

// Whether two parts of the same place and length differ somewhere. By no `==`, which may end early: over slices of 128 bytes it was 1.5 times
// as slow, over arrays 1.1 times.
fn differs<const WIDTH: usize>(a: &[u8], b: &[u8], at: usize) -> bool
    requires { (at + WIDTH ≤ length a.now) × (at + WIDTH ≤ length b.now) }
    ensures { (result ≡ false → Same a.now b.now at (at + WIDTH))
        × (result ≡ true → Same a.now b.now at (at + WIDTH) → ⊥) }
{
    let mut seen = false;
    for i in 0..WIDTH {
        seen |= a[at + i] != b[at + i];
    }
    seen
}

// The first place from `from` on, in steps of the width, whose bytes up to the next place differ, or that has no next place. No width is
// no step.
pub fn next_unlike<const WIDTH: usize>(a: &[u8], b: &[u8], from: usize) -> usize
    ensures steps { 1 ≤ WIDTH → NextChunk WIDTH a.now b.now from result }
    ensures none { WIDTH ≡ 0 → result ≡ from }
{
    let end = a.len().min(b.len());
    if WIDTH == 0 || end <= from {
        return from;
    }
    // Not by an iterator of chunks: that counts chunks, and the answer is a place.
    let mut at = from;
    while WIDTH <= end - at {
        if differs::<WIDTH>(a, b, at) {
            return at;
        }
        at += WIDTH;
    }
    at
}

// The next difference before `end`, a byte at a time: for the last few bytes before one.
fn next_byte(a: &[u8], b: &[u8], from: usize, end: usize) -> usize
    requires { (from ≤ end) × (end ≡ min (length a.now) (length b.now)) }
    ensures { result ≡ next_diff a.now b.now from }
{
    for at in from..end {
        if a[at] != b[at] {
            return at;
        }
    }
    end
}

// The first place from `from` on at which a and b differ or one of them ends. The next byte and the next word come first: where
// two pages differ much, the wide steps would be in vain.
pub fn next_diff(a: &[u8], b: &[u8], from: usize) -> usize
    ensures { result ≡ next_diff a.now b.now from }
{
    let end = a.len().min(b.len());
    if end <= from {
        return from;
    }
    if a[from] != b[from] {
        return from;
    }
    if end - from < WORD {
        return next_byte(a, b, from, end);
    }
    if differs::<WORD>(a, b, from) {
        return next_byte(a, b, from, end);
    }
    let wide = next_unlike::<{ Grid::CHUNK }>(a, b, from + WORD);
    let near = next_unlike::<WORD>(a, b, wide);
    next_byte(a, b, near, end)
}

// Whether a and b have the whole chunk from `at` on.
fn has_chunk(a: &[u8], b: &[u8], at: usize) -> bool
    ensures { result ≡ has_chunk a.now b.now at }
{
    Grid::CHUNK <= a.len().min(b.len()).saturating_sub(at)
}

// How many of a chunk's places differ. The count is a byte, so that sixteen are added at one go.
fn count_whole(a: &[u8], b: &[u8], at: usize) -> u8
    requires { (at + chunk ≤ length a.now) × (at + chunk ≤ length b.now) }
    ensures { result ≡ diffs_in a.now b.now at chunk }
{
    let mut count: u8 = 0;
    for i in 0..Grid::CHUNK {
        count += u8::from(a[at + i] != b[at + i]);
    }
    count
}

// How many places of the chunk from `at` on differ. None are told of a chunk that a or b does not have whole.
pub fn count_chunk(a: &[u8], b: &[u8], at: usize) -> usize
    ensures { result ≡ chunk_diffs a.now b.now at }
{
    if has_chunk(a, b, at) {
        usize::from(count_whole(a, b, at))
    } else {
        0
    }
}

// The place after the last difference between `from` and `to`, or `from`: for a chunk that has one, looked for from its end.
fn after_last(a: &[u8], b: &[u8], from: usize, to: usize) -> usize
    requires { (from ≤ to) × (to ≤ length a.now) × (to ≤ length b.now) }
    ensures { result ≡ after_last a.now b.now from (to - from) }
{
    for at in (from..to).rev() {
        if a[at] != b[at] {
            return at + 1;
        }
    }
    from
}

// The place after the last difference of the chunk from `at` on, or `at`; so too where a or b does not have the chunk whole.
pub fn after_chunk(a: &[u8], b: &[u8], at: usize) -> usize
    ensures { result ≡ chunk_after a.now b.now at }
{
    if has_chunk(a, b, at) {
        after_last(a, b, at, at + Grid::CHUNK)
    } else {
        at
    }
}

// Whether a and b hold the same bytes.
pub fn same(a: &[u8], b: &[u8]) -> bool
    ensures { result ≡ same_bytes a.now b.now }
{
    a == b
}

// Whether a and b hold the same bytes in one part of both.
pub fn same_part(a: &[u8], b: &[u8], at: usize, n: usize) -> bool
    ensures { result ≡ same_bytes (part_of at n a.now) (part_of at n b.now) }
{
    let p = span::part(a, at, n);
    let q = span::part(b, at, n);
    same(p, q)
}
