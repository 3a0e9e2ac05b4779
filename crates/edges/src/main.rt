// Runs the edges and the refusal orders of the paper for the calls that are lent no areas: reads a case a line from standard input,
// makes its call, and prints what the call answered and every lent byte that it changed. The cases and what must be printed were
// written by hand from the paper.
#![tactic(auto)]

mod answers;

use cases::delta::delta;
use cases::fields::field;
use cases::make::buffer;
use cases::{fields, say};
use layout::Layout;

// The calls by their first letters.
const COMPARE: u8 = b'c';

const APPLY: u8 = b'a';

const NEXT: u8 = b'n';

const JUDGE: u8 = b'j';

const SLOTINFO: u8 = b's';

const LOOK_UP: u8 = b'l';

const TALLY: u8 = b't';

// slotinfo | name | slot
fn slotinfo(slot: &[u8]) {
    let mut out = [0u8; info::text::LONGEST];
    let n = info::text::report(&mut out, slot);
    say::text(b"\n");
    say::text(span::part(&out, 0, n));
}

// A step of the entry reader: next | name | payload | at | position.
fn next(line: &[u8], payload: &[u8]) {
    let at = fields::number(field(line, 3));
    let position = fields::position(field(line, 4));
    answers::next(entry_reader::step_at(payload, Layout::PAGE, at, position));
}

// look up | name | map | n | block
fn look_up(line: &[u8], map: &[u8]) {
    let n = fields::number(field(line, 3));
    answers::looked(blockmap::look_up(map, n, fields::number(field(line, 4))));
}

// tally | name | map | n
fn tally(line: &[u8], map: &[u8]) {
    let n = fields::number(field(line, 3));
    answers::tallied(blockmap::tally(map, n));
}

// compare | name | base | page | buffer
fn compare(line: &[u8], base: &[u8]) {
    let page = buffer(field(line, 3));
    let was = buffer(field(line, 4));
    let mut room = was.bytes;
    let lent = &mut room[..was.length];
    answers::compared(stream::compare(base, span::part(&page.bytes, 0, page.length), lent));
    delta(b"buffer", &was.bytes, &room);
}

// apply | name | base | payload | page
fn apply(line: &[u8], base: &[u8]) {
    let payload = buffer(field(line, 3));
    let was = buffer(field(line, 4));
    let mut page = was.bytes;
    let lent = &mut page[..was.length];
    answers::applied(stream::apply(base, span::part(&payload.bytes, 0, payload.length), lent));
    delta(b"page", &was.bytes, &page);
}

// One case.
fn run(line: &[u8]) {
    let call = say::case(line);
    let first = buffer(field(line, 2));
    let part = span::part(&first.bytes, 0, first.length);
    match call {
        COMPARE => compare(line, part),
        APPLY => apply(line, part),
        NEXT => next(line, part),
        JUDGE => answers::judged(store::judge::judge(part)),
        SLOTINFO => slotinfo(part),
        LOOK_UP => look_up(line, part),
        TALLY => tally(line, part),
        _ => {}
    }
    say::text(b"\n");
}

fn run_all(text: &[u8]) {
    for line in text.split_inclusive(|byte| *byte == b'\n') {
        run(fields::line_at(line, 0));
    }
}

fn main() {
    let mut text = io::large_buffer();
    let n = io::read_full(0, &mut text);
    run_all(&text[..n]);
}
