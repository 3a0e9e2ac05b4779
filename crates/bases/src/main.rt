// The page that a base stands for: reads a base a line from standard input, and prints how long its page is and where that is not zeros. No call
// of the paper hands this page out, so the programs of its edges do not ask for it.
#![tactic(auto)]

use cases::delta::delta;
use cases::fields::field;
use cases::make::{ROOM, buffer};
use cases::{fields, say};

// base | name | base
fn run(line: &[u8]) {
    say::case(line);
    let base = buffer(field(line, 2));
    let page = stream::present(span::part(&base.bytes, 0, base.length));
    say::number(page.len() as u64);
    delta(b"page", &[0u8; ROOM], page);
    say::text(b"\n");
}

fn main() {
    let mut text = io::large_buffer();
    let n = io::read_full(0, &mut text);
    for line in text[..n].split_inclusive(|byte| *byte == b'\n') {
        run(fields::line_at(line, 0));
    }
}
