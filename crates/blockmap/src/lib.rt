// The block map: two bits for each block.
#![tactic(auto)]

ghost use Rattle.std.specs.Prelude.{◌≡◌, cond, ◌+◌, ◌-◌, ◌*◌, ◌/◌, ◌%◌, ◌^◌, leb, length};
ghost use Rattle.layout.specs.Sizes.{page_size};
ghost use Rattle.layout.specs.Numbers.{kind_number};
ghost use Rattle.blockmap.specs.Pairs.{map_bytes, some_used};
ghost use Rattle.blockmap.specs.Pack.{byte_of, pair_of, kind_of, with_pair, set_pair, clear_pairs};
ghost use Rattle.blockmap.specs.Calls.{Held, LookUp, Tally};

use layout::{Kind, Layout, Refusal};

// The pairs of the three kinds, and the one that no block may have: numbers, since they are bits of the map.
const EMPTY: u8 = 0;

const PATCH: u8 = 2;

const FULL: u8 = 1;

const RESERVED: u8 = 3;

// What Tally answers: how many blocks are PATCH, and how many full.
#[derive(Clone, Copy, PartialEq, Eq)]
pub struct Tallied {
    pub patch: usize,
    pub full: usize,
}

// How many bytes the map of n blocks has: n/4, rounded up, for every n.
#[tactic(auto, unfolding(crate::specs::Pairs::map_bytes))]
pub fn map_bytes(n: usize) -> usize
    ensures { result ≡ map_bytes n }
{
    n.div_ceil(4)
}

// The pair that stands for a slot's kind.
#[tactic(auto, unfolding(crate::specs::Pack::pair_of))]
pub fn pair_of(kind: Kind) -> u8
    ensures { result ≡ pair_of (kind_number kind) }
{
    match kind {
        Kind::Empty => EMPTY,
        Kind::Patch => PATCH,
        Kind::Full => FULL,
    }
}

// The kind that a pair stands for.
#[tactic(auto, unfolding(crate::specs::Pack::kind_of))]
pub fn kind_of(pair: u8) -> Kind
    ensures { kind_number result ≡ kind_of pair }
{
    match pair {
        PATCH => Kind::Patch,
        FULL => Kind::Full,
        _ => Kind::Empty,
    }
}

// The byte that holds these four pairs, the first in its lowest bits. Of each number only the two lowest bits count.
#[tactic(auto, unfolding(crate::specs::Pack::byte_of))]
pub fn byte_of(p0: u8, p1: u8, p2: u8, p3: u8) -> u8
    ensures { result ≡ byte_of p0 p1 p2 p3 }
{
    p0 % 4 + p1 % 4 * 4 + p2 % 4 * 16 + p3 % 4 * 64
}

// A byte with one block's pair set, the other three as they are.
#[tactic(auto, using(crate::specs::PairBitLaws::with_shifted))]
fn with_pair(byte: u8, block: usize, pair: u8) -> u8
    ensures { result ≡ with_pair byte (block % 4) pair }
{
    let shift = 2 * (block % 4);
    (byte & !(0b11 << shift)) | ((pair % 4) << shift)
}

// Sets one block's pair; every other pair and byte stays. A map that does not reach to the block stays whole.
#[tactic(auto, using(crate::specs::SetLaws::set_short), unfolding(crate::specs::Pack::set_pair))]
pub fn set_pair(map: &mut [u8], block: usize, pair: u8)
    ensures { map.new ≡ set_pair map.old block pair }
{
    // By index: `get_mut` promises nothing of what the map is in the end.
    let at = block / 4;
    if at < map.len() {
        map[at] = with_pair(map[at], block, pair);
    }
}

// The pairs of blocks `from` and up, below `to`, become 0, one by one.
#[tactic(auto, using(crate::specs::ClearLaws::clear_next, crate::specs::ClearLaws::clear_none))]
fn clear_each(map: &mut [u8], from: usize, to: usize)
    ensures { map.new ≡ clear_pairs map.old from (to - from) }
{
    for block in from..to {
        set_pair(map, block, EMPTY);
    }
}

// The same, whole bytes at one go: one by one only in a byte that other blocks have pairs in. A map of fewer than `to` blocks stays whole.
pub fn clear_pairs(map: &mut [u8], from: usize, to: usize)
    ensures { map.new ≡ cond (leb (map_bytes to) (length map.old))
        (clear_pairs map.old from (to - from)) map.old }
{
    if map.len() < map_bytes(to) {
        return;
    }
    let first = map_bytes(from);
    let last = to / 4;
    if last <= first {
        clear_each(map, from, to);
        return;
    }
    clear_each(map, from, 4 * first);
    span::fill(&mut map[first..last]);
    clear_each(map, 4 * last, to);
}

// The pairs of a byte from a block's own on, this one in the lowest bits.
#[tactic(auto, using(crate::specs::PairLaws::four_power))]
fn pairs_from(byte: u8, block: usize) -> u8
    ensures { result ≡ byte / 4 ^ (block % 4) }
{
    byte >> (2 * (block % 4))
}

// Whether an unused pair of the last byte is not 0: a map of n blocks whose last byte is not whole has some.
#[tactic(auto, using(crate::specs::PairLaws::unused_is))]
fn unused_met(map: &[u8], n: usize) -> bool
    ensures { result ≡ some_used map.now n (4 * map_bytes n - n) }
{
    let last = n / 4;
    if n % 4 == 0 || map.len() <= last {
        return false;
    }
    pairs_from(map[last], n) != 0
}

// How many bytes the map of n blocks has: refused if a segment has fewer blocks, or this map fewer bytes.
fn bytes_held(map: &[u8], n: usize) -> Result<usize, Refusal>
    ensures { Held page_size map.now n result }
{
    if Layout::BLOCKS < n {
        return Err(Refusal::Length);
    }
    let bytes = map_bytes(n);
    if map.len() < bytes {
        return Err(Refusal::Buffer);
    }
    Ok(bytes)
}

// What one block's pair stands for, in a map of n blocks.
#[tactic(auto, using(crate::specs::CallLaws::look_unheld, crate::specs::CallLaws::look_block), unfolding(crate::specs::Pairs::map_bytes))]
pub fn look_up(map: &[u8], n: usize, block: usize) -> Result<Kind, Refusal>
    ensures { LookUp page_size map.now n block result }
{
    bytes_held(map, n)?;
    if n <= block {
        return Err(Refusal::Block);
    }
    let pair = pairs_from(map[block / 4], block) % 4;
    if pair == RESERVED {
        return Err(Refusal::Pair);
    }
    Ok(kind_of(pair))
}

// How many of a map's n blocks are PATCH and how many full. Where no pair is 3, a high bit is a PATCH pair and a low bit a full one.
#[tactic(auto, using(crate::specs::CallLaws::tally_unheld), unfolding(crate::specs::Pairs::map_bytes))]
pub fn tally(map: &[u8], n: usize) -> Result<Tallied, Refusal>
    ensures { Tally page_size map.now n result }
{
    let bytes = bytes_held(map, n)?;
    if unused_met(map, n) {
        return Err(Refusal::Pair);
    }
    let counted = bits::count(map, bytes as u32);
    if counted.three {
        return Err(Refusal::Pair);
    }
    Ok(Tallied {
        patch: counted.high,
        full: counted.low,
    })
}
