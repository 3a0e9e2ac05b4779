// Runs the edges and the refusal orders of the paper for the calls on areas. The areas and the map beside them stay from line to line. It
// reads a case a line from standard input, makes its call, and prints what the call answered and every lent byte that it changed. The
// cases and what must be printed were written by hand from the paper.
#![tactic(auto)]

mod answers;

use carrying::Written;
use carrying::mapped::carry_out_mapped;
use cases::delta::delta;
use cases::fields::field;
use cases::make::{buffer, make_or_keep};
use cases::{fields, say};
use layout::{Kind, Layout, Refusal, RefusedAt};
use reading::mapped::read_mapped;

// The calls by their first letters.
const FORMAT: u8 = b'f';

const SHOW: u8 = b's';

const READ: u8 = b'r';

const WRITE: u8 = b'w';

const BUILD: u8 = b'b';

// With the map: a read by it, and a write that keeps it.
const MAPPED: u8 = b'm';

const KEEP: u8 = b'k';

// Carry out a decision of the line's own, and the same with the map.
const OUT: u8 = b'o';

const NOTE: u8 = b'n';

// Cut, and Cut with the map.
const CUT: u8 = b'c';

const TRIM: u8 = b't';

const HIGHEST: u8 = b'h';

// Sweep, by the name `zero`, since Show has its letter.
const SWEEP: u8 = b'z';

// How many stores a line tells that does not say it: all.
const ALL: usize = 2;

// Room for a byte more than nine blocks or two full pages have.
const PATCH_ROOM: usize = Layout::PATCH_HEAD + 9 * Layout::SLOT + 1;

const FULL_ROOM: usize = Layout::FULL_HEAD + 2 * Layout::PAGE + 1;

// Room for two bytes more than the map of nine blocks has.
const MAP_ROOM: usize = 5;

// Room for the cases, a third more than they take. What did not fit would be missing in the output.
const TEXT_ROOM: usize = 98304;

// show | name | patch | full | block. The full area is not lent.
fn show(line: &[u8], patch: &[u8]) {
    let block = fields::number(field(line, 4));
    let part = store::show::show(patch, block);
    say::number(part.len() as u64);
    if part.is_empty() {
        return;
    }
    let place = store::show::payload_place(patch, block);
    say::word(b"at");
    say::number(place.at as u64);
    answers::first_bytes(part);
}

// read | name | patch | full | block | base | page, and mapped with one more, | map
fn read<F: FnOnce(usize, &[u8], &mut [u8]) -> Result<Kind, RefusedAt>>(line: &[u8], call: F)
    requires { F.IsAlwaysCallable call }
{
    let block = fields::number(field(line, 4));
    let base = buffer(field(line, 5));
    let was = buffer(field(line, 6));
    let mut page = was.bytes;
    let lent = &mut page[..was.length];
    answers::reading(call(block, span::part(&base.bytes, 0, base.length), lent));
    delta(b"page", &was.bytes, &page);
}

// build | name | patch | full | map
fn build(line: &[u8], patch: &[u8], full: &[u8]) {
    let was = buffer(field(line, 4));
    let mut map = was.bytes;
    let lent = &mut map[..was.length];
    answers::built(building::build(patch, full, lent));
    delta(b"map", &was.bytes, &map);
}

// How many stores a line tells: its last field, after the map and the kind.
fn told(line: &[u8]) -> usize {
    let stores = field(line, 9);
    if stores.is_empty() {
        return ALL;
    }
    fields::number(stores)
}

// write | name | patch | full | block | base | page, and keep with one more, | map. What Compare decides is carried out.
fn write<F>(line: &[u8], call: F)
where
    F: FnOnce(usize, u32, &[u8], &[u8], usize) -> Result<Written, Refusal>,
    requires { F.IsAlwaysCallable call }
{
    let base = buffer(field(line, 5));
    let page = buffer(field(line, 6));
    let modified = span::part(&page.bytes, 0, page.length);
    let mut bytes = [0xeeu8; Layout::ROOM];
    let room: &mut [u8] = &mut bytes;
    let decided = stream::compare(span::part(&base.bytes, 0, base.length), modified, room);
    answers::compared(decided);
    let Ok(found) = decided else {
        return;
    };
    say::word(b"out");
    let payload = found.payload(room);
    let block = fields::number(field(line, 4));
    answers::written(call(block, found.kind.into(), payload, modified, told(line)));
}

// out | name | patch | full | block | payload | page | | kind, and note with the map before the kind
fn out<F>(line: &[u8], call: F)
where
    F: FnOnce(usize, u32, &[u8], &[u8], usize) -> Result<Written, Refusal>,
    requires { F.IsAlwaysCallable call }
{
    let payload = buffer(field(line, 5));
    let page = buffer(field(line, 6));
    let kind = (fields::number(field(line, 8)) % 4294967296) as u32;
    let block = fields::number(field(line, 4));
    let used = span::part(&payload.bytes, 0, payload.length);
    let full = span::part(&page.bytes, 0, page.length);
    answers::written(call(block, kind, used, full, told(line)));
}

// The calls that change the areas: format and zero | name | patch | full, cut | name | patch | full | k, trim with three more, of which the
// first two are empty, | | | map, and those above. It answers whether this was one.
fn store(call: u8, line: &[u8], patch: &mut [u8], full: &mut [u8], map: &mut [u8]) -> bool {
    let k = fields::number(field(line, 4));
    match call {
        FORMAT => answers::number(store::format::format(patch, full)),
        WRITE => write(line, |block, kind, payload, page, stores| {
            carrying::carry_out(patch, full, block, kind, payload, page, stores)
        }),
        KEEP => write(line, |block, kind, payload, page, stores| {
            carry_out_mapped(patch, full, map, block, kind, payload, page, stores)
        }),
        OUT => out(line, |block, kind, payload, page, stores| {
            carrying::carry_out(patch, full, block, kind, payload, page, stores)
        }),
        NOTE => out(line, |block, kind, payload, page, stores| {
            carry_out_mapped(patch, full, map, block, kind, payload, page, stores)
        }),
        CUT => answers::number(cutting::cut(patch, full, k)),
        TRIM => answers::number(cutting::mapped::cut_mapped(patch, full, map, k)),
        SWEEP => answers::number(sweeping::sweep(patch, full)),
        _ => return false,
    }
    true
}

// An area or the map as it is now.
fn copied(lent: &[u8]) -> [u8; FULL_ROOM] {
    let mut bytes = [0u8; FULL_ROOM];
    span::copy(&mut bytes, lent);
    bytes
}

// Makes such a call, and tells what it changed. Only three of them are lent the map.
fn change(call: u8, line: &[u8], patch: &mut [u8], full: &mut [u8], map: &mut [u8]) {
    let patch_was = copied(patch);
    let full_was = copied(full);
    let map_was = copied(map);
    if store(call, line, patch, full, map) {
        delta(b"patch", &patch_was, patch);
        delta(b"full", &full_was, full);
    }
    if let KEEP | NOTE | TRIM = call {
        delta(b"map", &map_was, map);
    }
}

// The calls that change no area, of which highest | name | patch takes nothing else. It is not lent the full area.
fn look(call: u8, line: &[u8], patch: &[u8], full: &[u8], map: &[u8]) {
    match call {
        SHOW => show(line, patch),
        READ => read(line, |block, base, page| {
            reading::read(patch, full, block, base, page)
        }),
        MAPPED => read(line, |block, base, page| {
            read_mapped(patch, full, map, block, base, page)
        }),
        BUILD => build(line, patch, full),
        HIGHEST => answers::extent(cutting::highest::highest(patch)),
        _ => {}
    }
}

// One case.
fn run(line: &[u8], patch: &mut [u8], full: &mut [u8], map: &mut [u8]) {
    let call = say::case(line);
    look(call, line, patch, full, map);
    change(call, line, patch, full, map);
    say::text(b"\n");
}

// A map is the last field of the lines that lend one; the other lines leave it.
fn run_all(text: &[u8]) {
    let mut patch = [0u8; PATCH_ROOM];
    let mut full = [0u8; FULL_ROOM];
    let mut map = [0u8; MAP_ROOM];
    let mut n = 0;
    let mut m = 0;
    let mut k = 0;
    for part in text.split_inclusive(|byte| *byte == b'\n') {
        let line = fields::line_at(part, 0);
        n = make_or_keep(&mut patch, field(line, 2), n);
        m = make_or_keep(&mut full, field(line, 3), m);
        k = make_or_keep(&mut map, field(line, 7), k);
        run(line, &mut patch[..n], &mut full[..m], &mut map[..k]);
    }
}

fn main() {
    let mut text = [0u8; TEXT_ROOM];
    let n = io::read_full(0, &mut text);
    run_all(&text[..n]);
}
