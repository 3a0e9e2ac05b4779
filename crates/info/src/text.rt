// The lines that `slotinfo` prints.
ghost use Rattle.std.specs.Prelude.{◌≡◌, ◌+◌, ◌≤◌, length};
ghost use Rattle.layout.specs.Sizes.{page_size};
ghost use Rattle.layout.specs.Numbers.{kind_number};
ghost use Rattle.span.specs.Bytes.{Put};
ghost use Rattle.info.specs.Info.{told_numbers, info_numbers};
ghost use Rattle.info.specs.Text.{widest, decimal, number_line, kind_line, last_line, longest, text};

use crate::Info;
use layout::{Kind, Refusal};

// The most bytes that the text can have.
pub const LONGEST: usize = 100;

// Stores a word as far as there is room, and answers the place after it, room or not.
fn put_word(out: &mut [u8], at: usize, word: &[u8]) -> usize
    requires { at ≤ widest }
    ensures { Put out.old at word.now result out.new }
{
    for (i, byte) in word.iter().enumerate() {
        span::put(out, at + i, *byte);
    }
    at + word.len()
}

// Stores a number's decimal digits: never more than 20.
fn put_decimal(out: &mut [u8], at: usize, n: u64) -> usize
    requires { at ≤ widest }
    ensures bytes { Put out.old at (decimal n) result out.new }
    ensures short { result ≤ at + 20 }
{
    // By io::decimal: `write!` into a slice promises no bytes, and ends where the room does.
    let mut digits = [0u8; 20];
    let k = io::decimal(n, &mut digits);
    put_word(out, at, &digits[..k])
}

// Stores a line: a word, a number and a line's end.
fn put_line(out: &mut [u8], at: usize, word: &[u8], n: u64) -> usize
    requires { at + length word.now + 20 ≤ widest }
    ensures bytes { Put out.old at (number_line word.now n) result out.new }
    ensures short { result ≤ at + length word.now + 21 }
{
    let a = put_word(out, at, word);
    let b = put_decimal(out, a, n);
    put_word(out, b, b"\n")
}

// The first line of a slot.
#[tactic(auto, unfolding(crate::specs::Text::kind_line))]
fn kind_word(kind: Kind) -> &'static [u8]
    ensures bytes { result.now ≡ kind_line (kind_number kind) }
    ensures short { length result.now ≤ 11 }
{
    match kind {
        Kind::Empty => b"kind empty\n",
        Kind::Patch => b"kind patch\n",
        Kind::Full => b"kind full\n",
    }
}

// Stores the last line of a slot: no position is below 0 but -1, which stands for none.
fn put_last(out: &mut [u8], at: usize, last: i32) -> usize
    requires { at + 25 ≤ widest }
    ensures bytes { Put out.old at (last_line last) result out.new }
    ensures short { result ≤ at + 26 }
{
    match u64::try_from(last) {
        Ok(n) => put_line(out, at, b"last ", n),
        Err(_) => put_word(out, at, b"last -1\n"),
    }
}

// Stores the whole text as far as there is room, and answers its length: never more than 100.
pub fn put_text(out: &mut [u8], info: Result<Info, Refusal>) -> usize
    ensures bytes { Put out.old 0 (text (told_numbers info)) result out.new }
    ensures short { result ≤ longest }
{
    match info {
        Ok(slot) => {
            let a = put_word(out, 0, kind_word(slot.kind));
            let b = put_line(out, a, b"length ", slot.length as u64);
            let c = put_line(out, b, b"entries ", slot.entries as u64);
            put_last(out, c, slot.last)
        }
        Err(refusal) => put_line(out, 0, b"refused ", u32::from(refusal) as u64),
    }
}

// What `slotinfo` prints for the bytes that it read.
pub fn report(out: &mut [u8], bytes: &[u8]) -> usize
    ensures bytes { Put out.old 0 (text (info_numbers page_size bytes.now)) result out.new }
    ensures short { result ≤ longest }
{
    put_text(out, crate::inspect(bytes))
}
