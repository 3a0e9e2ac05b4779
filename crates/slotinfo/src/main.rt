// Reads one slot from standard input and prints what it is: its kind, length, entries and last position, or why it is refused.
#![tactic(auto)]

use info::text::LONGEST;
use layout::Layout;

// One byte more than a slot has, so that a longer input is noticed.
const READ: usize = Layout::SLOT + 1;

fn main() {
    let mut bytes = [0u8; READ];
    let n = io::read_full(0, &mut bytes);
    let mut out = [0u8; LONGEST];
    let length = info::text::report(&mut out, &bytes[..n]);
    io::write_all(1, &out[..length]);
}
