// Eight bytes as a number, the first in its lowest bits: the compiler makes one load of it.
ghost use Rattle.std.specs.Prelude.{◌≡◌, ◌+◌, ◌≤◌, length as length_of};
ghost use Rattle.writer.specs.Words.{word_bytes, numeral};

// How many bytes are compared at one go where a chunk differs: as many as a register of every machine has.
pub(crate) const WORD: usize = 8;

pub(crate) fn word(s: &[u8], at: usize) -> u64
    requires { at + word_bytes ≤ length_of s.now }
    ensures { result ≡ numeral s.now at word_bytes }
{
    let bytes = <[u8; WORD]>::try_from(&s[at..at + WORD]).unwrap();
    u64::from_le_bytes(bytes)
}
