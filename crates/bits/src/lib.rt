// The bits of a map's bytes, counted. A pair has its low bit alone set where it is 1, its high bit alone where it is 2, and both where it
// is 3. So where no pair is 3, there are as many PATCH pairs as high bits and as many full pairs as low bits.
#![tactic(auto)]

ghost use Rattle.std.specs.Prelude.{◌≡◌, ◌+◌, ◌≤◌, ◌<◌, ◌^◌, length};
ghost use Rattle.std.specs.Int.Count.{ones};
ghost use Rattle.bits.specs.Bits.{low_bits, high_bits, threes, together, Counts};

// Bytes of a map that are counted at one go.
const CHUNK: usize = 32;

// Of some bytes of a map: how many high bits and how many low bits their pairs have set, and whether a pair is 3.
#[derive(Clone, Copy)]
pub struct Counted {
    pub high: usize,
    pub low: usize,
    pub three: bool,
}

impl Counted {
    // Of these bytes and of others.
    fn with(self, more: Counted) -> Counted
        requires { (self.high + more.high < 2 ^ 64) × (self.low + more.low < 2 ^ 64) }
        ensures { result ≡ together self more }
    {
        Counted {
            high: self.high + more.high,
            low: self.low + more.low,
            three: self.three | more.three,
        }
    }
}

// The low bits of a byte's four pairs.
fn low_bits(byte: u8) -> u8
    ensures { result ≡ low_bits byte }
{
    byte & 0b0101_0101
}

// The high bits of a byte's four pairs, each moved to the place of its low bit.
fn high_bits(byte: u8) -> u8
    ensures { result ≡ high_bits byte }
{
    low_bits(byte / 2)
}

// The pairs of a byte that are 3: both bits are set.
fn threes(byte: u8) -> u8
    ensures { result ≡ threes byte }
{
    low_bits(byte) & high_bits(byte)
}

// How many bits of a byte are set.
fn number_of_bits(byte: u8) -> u8
    ensures { result ≡ ones byte }
{
    byte.count_ones() as u8
}

// Counts a few bytes. A byte has four high bits and four low bits, so the sums over 63 bytes are still below 256.
fn chunk(bytes: &[u8]) -> Counted
    requires { length bytes.now ≤ 63 }
    ensures { Counts bytes.now 0 (length bytes.now) result }
{
    let mut high: u8 = 0;
    let mut low: u8 = 0;
    let mut met: u8 = 0;
    for byte in bytes {
        high += number_of_bits(high_bits(*byte));
        low += number_of_bits(low_bits(*byte));
        met |= threes(*byte);
    }
    Counted {
        high: high as usize,
        low: low as usize,
        three: met != 0,
    }
}

// Counts the first `bytes` bytes of a map, or all that it has: in whole chunks, then the rest. A chunk's sums fit a byte, so the compiler
// adds many bytes at once: one loop with sums of 64 bits took ten times as long, and `chunks`, whose parts may be shorter, a sixth longer.
pub fn count(map: &[u8], bytes: u32) -> Counted
    ensures { Counts map.now 0 bytes result }
{
    let end = map.len().min(bytes as usize);
    let chunks = map[..end].chunks_exact(CHUNK);
    let rest = chunks.remainder();
    let mut sum = Counted {
        high: 0,
        low: 0,
        three: false,
    };
    for part in chunks {
        sum = sum.with(chunk(part));
    }
    sum.with(chunk(rest))
}
