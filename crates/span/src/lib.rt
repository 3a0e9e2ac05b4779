// Bytes in a slice: fill, copy, test. Every public function takes the part that it works on, so none asks anything of its
// caller. The compiler turns each into wide instructions: no loop leaves early at a byte.
#![tactic(auto)]

ghost use Rattle.std.specs.Prelude.{◌≡◌, ◌+◌, ◌≤◌, ◌&&◌, length, set, take};
ghost use Rattle.std.specs.List.{fold};
ghost use Rattle.std.specs.Int.Bits.{bit_or};
ghost use Rattle.span.specs.Stretches.{tail};
ghost use Rattle.span.specs.Bytes.{zeros, splice, emptied, part as part_of, part_from, same as same_bytes};

// How many bytes are cleared at one go, or left if they are zero: what a file system gives room to at least.
const HOLE: usize = 4 * 1024;

// How many bytes a test for zeros looks at before it may end: many registers' worth, and few of a page that is not zero.
const STRETCH: usize = 256;

// The same where a slice has fewer bytes than that, and where it has fewer than a piece.
const PIECE: usize = 32;

const WORD: usize = 8;

// Stores a byte, if there is room for it.
// By index: of a byte that `get_mut` lends no proof knows what the slice ends as.
pub fn put(dst: &mut [u8], at: usize, value: u8)
    ensures { dst.new ≡ set dst.old at value }
{
    if at < dst.len() {
        dst[at] = value;
    }
}

// Every byte becomes zero, and none is written where all are zero already.
fn clear(dst: &mut [u8])
    ensures { dst.new ≡ zeros (length dst.old) }
{
    if !all_zero(dst) {
        dst.fill(0);
    }
}

// Every byte becomes zero. What is zero already is not written, a few at a time: the holes of a sparse file stay holes.
// By index: of the parts that `chunks_mut` lends no proof knows what the slice ends as. The rest by itself: where the loop took it too, with
// no fixed length in it, memory of zeros took 1.13 times as long.
pub fn fill(dst: &mut [u8])
    ensures { dst.new ≡ zeros (length dst.old) }
{
    let whole = dst.len() / HOLE;
    for i in 0..whole {
        clear(&mut dst[HOLE * i..HOLE * i + HOLE]);
    }
    clear(&mut dst[HOLE * whole..]);
}

// Every byte from `at` on becomes zero, and those before it stay. What is zero already is not written.
pub fn fill_from(dst: &mut [u8], at: usize)
    ensures { dst.new ≡ emptied at dst.old }
{
    let start = at.min(dst.len());
    fill(&mut dst[start..]);
}

// The bytes of src, as many as dst has.
fn copy_whole(dst: &mut [u8], src: &[u8])
    requires { length src.now ≡ length dst.old }
    ensures { dst.new ≡ src.now }
{
    dst.copy_from_slice(src);
}

// The bytes of src, as many as dst has room for, from dst's start on.
pub fn copy(dst: &mut [u8], src: &[u8])
    ensures { dst.new ≡ splice dst.old 0 (take (length dst.old) src.now) }
{
    let n = dst.len().min(src.len());
    copy_whole(&mut dst[..n], &src[..n]);
}

// The bits that are set in some byte. No byte ends it, so many are read at once.
fn bits_in(s: &[u8]) -> u8
    ensures { result ≡ fold bit_or 0 s.now }
{
    s.iter().fold(0, |seen: u8, byte: &u8| seen | *byte)
}

// Whether the whole parts of this width from the start on are zero: as many bytes as there are but for fewer than a part. A call reads a part at one go.
fn parts_zero<const WIDTH: usize>(s: &[u8]) -> bool
    requires { 1 ≤ WIDTH }
    ensures { same_bytes s.now (zeros (length s.now)) ≡ (result && same_bytes (tail WIDTH s.now) (zeros (length (tail WIDTH s.now)))) }
{
    s.chunks_exact(WIDTH).all(|bytes| bits_in(bytes) == 0)
}

// Whether every byte is zero, where there are fewer than a piece has.
fn few_zero(s: &[u8]) -> bool
    ensures { result ≡ same_bytes s.now (zeros (length s.now)) }
{
    let Some(end) = s.last_chunk::<WORD>() else {
        return bits_in(s) == 0;
    };
    parts_zero::<WORD>(s) && bits_in(end) == 0
}

// Whether every byte is zero, of some.
// A rest is read with the whole stretch, or the piece, that ends with it: by itself, a scan of slots took up to 1.7 times as long. Pieces where there
// is no stretch, and for a rest that is no longer: without them, a scan of PATCH slots took up to 1.3 times as long.
fn some_zero(s: &[u8]) -> bool
    ensures { result ≡ same_bytes s.now (zeros (length s.now)) }
{
    let Some(piece) = s.last_chunk::<PIECE>() else {
        return few_zero(s);
    };
    let Some(stretch) = s.last_chunk::<STRETCH>() else {
        return parts_zero::<PIECE>(s) && bits_in(piece) == 0;
    };
    let rest = s.len() % STRETCH;
    if rest == 0 {
        return parts_zero::<STRETCH>(s);
    }
    if rest <= PIECE {
        return parts_zero::<STRETCH>(s) && bits_in(piece) == 0;
    }
    parts_zero::<STRETCH>(s) && bits_in(stretch) == 0
}

// Whether every byte is zero. None is told where it is asked: slots whose payloads fill them took up to 1.5 times as long by a call.
#[inline(always)]
pub fn all_zero(s: &[u8]) -> bool
    ensures { result ≡ same_bytes s.now (zeros (length s.now)) }
{
    s.is_empty() || some_zero(s)
}

// The n bytes of s from `at` on, or as many of them as s has.
pub fn part(s: &[u8], at: usize, n: usize) -> &[u8]
    ensures bytes { result.now ≡ part_of at n s.now }
    ensures place { (result.ref_ptr.0 ≡ s.entry.ref_ptr.0) × (result.ref_ptr.1 ≡ s.entry.ref_ptr.1 + part_from at (length s.now)) }
{
    if s.len() <= at {
        return &s[..0];
    }
    let end = at + n.min(s.len() - at);
    &s[at..end]
}

// Whether s has n bytes from `at` on, all of them zero.
pub fn zero_part(s: &[u8], at: usize, n: usize) -> bool
    ensures { result ≡ same_bytes (part_of at n s.now) (zeros n) }
{
    let p = part(s, at, n);
    p.len() == n && all_zero(p)
}
