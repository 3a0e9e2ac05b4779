// A buffer made from its description: `LENGTH ITEM ..`, all bytes 0 but for the items. An item is `AT:HEX`, bytes laid at a place,
// `FROM-TO:HH`, one value from one place to another, `P` or `F`, the sound header of a patch or of a full area.
ghost use Rattle.std.specs.Prelude.{◌≡◌, ◌<◌, ◌≤◌, ◌⊎◌, length, get_or, min};

use crate::fields::{number, piece};
use layout::Layout;

// Room for a byte more than a page has.
pub const ROOM: usize = Layout::PAGE + 1;

// A buffer, and how many of its bytes are described. No `ArrayVec`, whose statements would have to be trusted besides; and whoever has a slice of any
// length can have one made in it.
#[derive(Clone, Copy)]
pub struct Made {
    pub bytes: [u8; ROOM],
    pub length: usize,
}

// The value of a hexadecimal digit. Any other byte has a value too, which the library's reading of digits would refuse.
fn nibble(digit: u8) -> u8
    ensures { result < 16 }
{
    if digit < b'a' {
        return digit % 16;
    }
    (digit % 16 + 9) % 16
}

// The byte that two hexadecimal digits spell.
fn spelled(digits: &[u8]) -> u8 {
    match digits {
        [high, low] => nibble(*high) * 16 + nibble(*low),
        _ => 0,
    }
}

// Lays an item's bytes from one place on, and the last of them over again up to another place.
fn lay(dst: &mut [u8], from: usize, to: usize, hex: &[u8]) {
    let len = dst.len();
    let start = from.min(len);
    for (place, digits) in dst[start..].iter_mut().zip(hex.chunks_exact(2)) {
        *place = spelled(digits);
    }
    if let Some(digits) = hex.chunks_exact(2).last() {
        let end = to.saturating_add(1).min(len);
        let rest = from.saturating_add(hex.len() / 2).min(end);
        dst[rest..end].fill(spelled(digits));
    }
}

// One item. The headers stand here byte by byte, as the paper has them.
fn lay_item(dst: &mut [u8], item: &[u8]) {
    match item.first() {
        Some(b'P') => span::copy(
            dst,
            b"PBKPATCH\x02\x00\x00\x00\x00\x20\x00\x00\x00\x02\x00\x00",
        ),
        Some(b'F') => span::copy(dst, b"PBKFULL\x00\x01\x00\x00\x00\x00\x20\x00\x00"),
        _ => {
            let places = piece(item, 0, b':');
            let from = number(piece(places, 0, b'-'));
            let to = number(piece(places, 1, b'-'));
            lay(dst, from, to, piece(item, 1, b':'));
        }
    }
}

// Makes a buffer, and answers how many of its bytes are described.
pub fn make(dst: &mut [u8], description: &[u8]) -> usize
    ensures { result ≤ length dst.old }
{
    span::fill(dst);
    for item in description.split(|byte| *byte == b' ') {
        lay_item(dst, item);
    }
    number(piece(description, 0, b' ')).min(dst.len())
}

// The same, but `=` leaves the buffer and its length as they are, and so does a line that has no such field, or one that begins with a zero byte.
pub fn make_or_keep(dst: &mut [u8], description: &[u8], kept: usize) -> usize
    ensures room { result ≤ length dst.old }
    ensures kept { (get_or description.now 0 61 ≡ 61) ⊎ (get_or description.now 0 61 ≡ 0)
        → (dst.new ≡ dst.old) × (result ≡ min kept (length dst.old)) }
{
    match description.first() {
        None | Some(0 | b'=') => kept.min(dst.len()),
        Some(_) => make(dst, description),
    }
}

// A buffer of its own.
pub fn buffer(description: &[u8]) -> Made
    ensures { result.length ≤ length result.bytes }
{
    let mut bytes = [0; ROOM];
    let length = make(&mut bytes, description);
    Made { bytes, length }
}
