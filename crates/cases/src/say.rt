// What a program prints. But for `case`, each function answers how many bytes its text, its word or its last number has.
ghost use Rattle.std.specs.Prelude.{◌≡◌, length, get_or, nat_abs};
ghost use Rattle.layout.specs.Numbers.{kind_number, refusal_number};
ghost use Rattle.io.specs.Digits.{IsDigitCount};

use crate::fields::{field, first};
use layout::{Kind, Refusal};

// The descriptor that is printed to.
pub const STDOUT: i32 = 1;

// Text as it is.
pub fn text(bytes: &[u8]) -> usize
    ensures { result ≡ length bytes.now }
{
    io::write_all(STDOUT, bytes);
    bytes.len()
}

// A word after a space.
pub fn word(bytes: &[u8]) -> usize
    ensures { result ≡ length bytes.now }
{
    text(b" ");
    text(bytes)
}

// A number's decimal digits. By `io::decimal`: what prints a number does not tell how many digits it has.
pub(crate) fn digits(n: u64) -> usize
    ensures { IsDigitCount 10 1 n result }
{
    let mut spelled = [0u8; 20];
    let k = io::decimal(n, &mut spelled);
    text(&spelled[..k]);
    k
}

// A number after a space.
pub fn number(n: u64) -> usize
    ensures { IsDigitCount 10 1 n result }
{
    text(b" ");
    digits(n)
}

// A position after a space, with a `-`, which is not counted, where it is below 0.
pub fn position(at: i32) -> usize
    ensures { IsDigitCount 10 1 (nat_abs at) result }
{
    text(b" ");
    if at < 0 {
        text(b"-");
    }
    digits(u64::from(at.unsigned_abs()))
}

// That a call is refused, and why.
pub fn refused(refusal: Refusal) -> usize
    ensures { IsDigitCount 10 1 (refusal_number refusal) result }
{
    number(u32::from(refusal).into())
}

// That a call is refused, why, and the payload offset that comes with it.
pub fn refused_at(refusal: Refusal, offset: usize) -> usize
    ensures { IsDigitCount 10 1 offset result }
{
    refused(refusal);
    number(offset as u64)
}

// That a call is done, and the kind.
pub fn done(kind: Kind) -> usize
    ensures { IsDigitCount 10 1 (kind_number kind) result }
{
    number(0);
    number(u32::from(kind).into())
}

// The start of a case's line: its call and its name. It answers the call's first letter, by which a program tells its calls apart.
pub fn case(line: &[u8]) -> u8
    ensures { result ≡ get_or line.now 0 0 }
{
    text(field(line, 0));
    word(field(line, 1));
    text(b":");
    first(line)
}
