// The case file: a line a case, its fields parted by bars.
ghost use Rattle.std.specs.Prelude.{◌≡◌, ◌≤◌, length, get_or};
ghost use Rattle.cases.specs.Decimal.{grow, decimal};
ghost use Rattle.cases.specs.Position.{position as position_in};

const BAR: u8 = b'|';

const LINE_END: u8 = b'\n';

// A number that another decimal digit still fits after.
const TOP: usize = (usize::MAX - 9) / 10;

// The k-th piece, counted from 0, of a text that bytes of this value part.
pub(crate) fn piece(text: &[u8], k: usize, stop: u8) -> &[u8]
    ensures { length result.now ≤ length text.now }
{
    let mut pieces = text.split(|byte| *byte == stop);
    pieces.nth(k).unwrap_or(&text[..0])
}

// The line that starts at a place, without its end.
pub fn line_at(text: &[u8], at: usize) -> &[u8]
    ensures { length result.now ≤ length text.now }
{
    piece(&text[at.min(text.len())..], 0, LINE_END)
}

// The k-th field of a line, counted from 0.
pub fn field(line: &[u8], k: usize) -> &[u8]
    ensures { length result.now ≤ length line.now }
{
    piece(line, k, BAR)
}

// The first byte of a text, or 0 if it has none: no Option, since each caller only asks whether it is one certain byte.
pub fn first(text: &[u8]) -> u8
    ensures { result ≡ get_or text.now 0 0 }
{
    *text.first().unwrap_or(&0)
}

// A number with one more decimal digit. Any other byte, and a digit that does not fit, leaves it.
fn grown(value: usize, digit: u8) -> usize
    ensures { result ≡ grow value digit }
{
    if digit < b'0' || b'9' < digit || TOP < value {
        return value;
    }
    value * 10 + usize::from(digit - b'0')
}

// The number that a text's digits say.
pub fn number(text: &[u8]) -> usize
    ensures { result ≡ decimal 0 text.now }
{
    text.iter()
        .fold(0, |value: usize, digit: &u8| grown(value, *digit))
}

// The position that a text says: the number of its digits, below 0 after a `-`, and 0 where an i32 does not hold it.
pub fn position(text: &[u8]) -> i32
    ensures { result ≡ position_in text.now }
{
    let size = i64::try_from(number(text)).unwrap_or(i64::MAX);
    let at = if first(text) == b'-' { -size } else { size };
    i32::try_from(at).unwrap_or(0)
}
