// A page against its base: the differences as a stream of (jump, value) entries.
#![tactic(auto)]

ghost use Rattle.std.specs.Prelude.{◌≡◌, ◌≤◌, cond, eqb, take, length as length_of};
ghost use Rattle.layout.specs.Sizes.{page_size, patch_kind, room as room_of};
ghost use Rattle.layout.specs.Numbers.{kind_number};
ghost use Rattle.payload.specs.Steps.{farthest, reach};
ghost use Rattle.stream.specs.Steps.{Applies, Compares};
ghost use Rattle.stream.specs.Calls.{page_of, pages_fit, kind_for, Apply, Compare};

use layout::{Kind, Layout, Refusal, RefusedAt};
use payload::Sound;

// What Compare answers: the kind, the stream's length, the number of entries and the last differing position, by the paper −1 where none differs.
#[derive(Clone, Copy, PartialEq, Eq)]
pub struct Compared {
    pub kind: Kind,
    pub length: usize,
    pub entries: usize,
    pub last: i32,
}

impl Compared {
    // Of the buffer that Compare was lent, the payload to carry out: only a patch has one, and the bytes after it would be more entries.
    pub fn payload<'a>(&self, buffer: &'a [u8]) -> &'a [u8]
        ensures { result.now ≡ take (cond (eqb (kind_number self.now.kind) patch_kind) self.now.length 0) buffer.now }
    {
        let used = match self.kind {
            Kind::Patch => self.length.min(buffer.len()),
            Kind::Empty | Kind::Full => 0,
        };
        &buffer[..used]
    }
}

// What a base of length 0 stands for; a static, since it is lent out.
static ZEROS: [u8; Layout::PAGE] = [0; Layout::PAGE];

// The page that a base stands for, for a caller who keeps no page of zeros. Compare, Apply and both reads do not ask it: by the paper each has a local
// page of its own.
pub fn present(base: &[u8]) -> &[u8]
    ensures { result.now ≡ page_of page_size base.now }
{
    if base.is_empty() { &ZEROS } else { base }
}

// Whether a base and another page have the lengths that they may have where a page has this size.
pub fn pages_fit(size: u32, base: &[u8], page: &[u8]) -> bool
    ensures { result ≡ pages_fit size base.now page.now }
{
    let size = size as usize;
    page.len() == size && (base.is_empty() || base.len() == size)
}

// What a stream of this length is: none, one that fits a slot, or too long.
pub fn kind_for(length: usize) -> Kind
    ensures { kind_number result ≡ kind_for length }
{
    match length {
        0 => Kind::Empty,
        1..=Layout::ROOM => Kind::Patch,
        _ => Kind::Full,
    }
}

// Compare with a base that is there. The stream is made in a room of its own, since it may turn out too long for the payload.
fn compare_to(base: &[u8], page: &[u8], payload: &mut [u8]) -> Compared
    requires { (length_of page.now ≤ farthest) × (room_of ≤ length_of payload.old) }
    ensures { Compares base.now page.now payload.old result payload.new }
{
    let mut room = [0u8; Layout::ROOM];
    let d = writer::stream_of(base, page, &mut room);
    let length = d.length;
    let kind = kind_for(length);
    if let Kind::Patch = kind {
        span::copy(payload, &room[..length]);
    }
    Compared {
        kind,
        length,
        entries: d.entries,
        last: d.last,
    }
}

// Finds what a page differs in from its base.
pub fn compare(base: &[u8], page: &[u8], payload: &mut [u8]) -> Result<Compared, Refusal>
    ensures { Compare page_size base.now page.now payload.old result payload.new }
{
    if !pages_fit(Layout::PAGE as u32, base, page) {
        return Err(Refusal::Page);
    }
    if payload.len() < Layout::ROOM {
        return Err(Refusal::Buffer);
    }
    if base.is_empty() {
        let zeros = [0u8; Layout::PAGE];
        return Ok(compare_to(&zeros, page, payload));
    }
    Ok(compare_to(base, page, payload))
}

// Apply to a base that is there, copied as far as it and the page go. The whole payload is checked before the page's first byte is
// written.
pub fn apply_to(base: &[u8], payload: &[u8], page: &mut [u8]) -> Result<Sound, RefusedAt>
    ensures { Applies (reach (length_of page.old)) base.now payload.now page.old result
        page.new }
{
    let sound = payload::check(payload, page.len())?;
    span::copy(page, base);
    payload::overlay(page, payload);
    Ok(sound)
}

// Lays a payload over its base into a page. It answers the number of entries that it applied and the last position.
pub fn apply(base: &[u8], payload: &[u8], page: &mut [u8]) -> Result<Sound, RefusedAt>
    ensures { Apply page_size base.now payload.now page.old result page.new }
{
    if !pages_fit(Layout::PAGE as u32, base, page) {
        return Err(Refusal::Page.into());
    }
    if base.is_empty() {
        let zeros = [0u8; Layout::PAGE];
        return apply_to(&zeros, payload, page);
    }
    apply_to(base, payload, page)
}
