// The frame of two areas: what every call on both decides before it looks at a block, and the numbers that it then works with.
ghost use Rattle.std.specs.Prelude.{◌≡◌};
ghost use Rattle.layout.specs.Numbers.{answer_number};
ghost use Rattle.layout.specs.Refusals.{first_of};
ghost use Rattle.store.specs.Open.{open_rows, open_numbers, opened_numbers};

use layout::Refusal;

// The frame of two areas: the page size, n and m.
#[derive(Clone, Copy, PartialEq, Eq)]
pub struct Frame {
    pub size: u32,
    pub n: u32,
    pub m: u32,
}

// What is wrong first with the frame: 1, 2, 9 and the headers, in this order and in no other place.
fn check_frame(
    size: u32,
    pages_fit: bool,
    buffer_fits: bool,
    patch: &[u8],
    full: &[u8],
) -> Result<(), Refusal>
    ensures { answer_number result ≡ first_of (open_rows size pages_fit buffer_fits patch.now full.now) }
{
    if !pages_fit {
        return Err(Refusal::Page);
    }
    if !layout::area::lengths_fit(size, patch.len(), full.len()) {
        return Err(Refusal::Length);
    }
    if !buffer_fits {
        return Err(Refusal::Buffer);
    }
    headers::check_headers(size, patch, full)
}

// Opens the frame, told whether the call's pages and its buffer have the lengths that they must have.
#[tactic(auto, using(crate::specs::OpenLaws::open_refused, layout::specs::NumberLaws::refusal_some))]
pub fn open(
    size: u32,
    pages_fit: bool,
    buffer_fits: bool,
    patch: &[u8],
    full: &[u8],
) -> Result<Frame, Refusal>
    ensures { opened_numbers result ≡ open_numbers size pages_fit buffer_fits patch.now full.now }
{
    check_frame(size, pages_fit, buffer_fits, patch, full)?;
    Ok(Frame {
        size,
        n: layout::area::blocks(patch.len()) as u32,
        m: layout::area::pages(size, full.len()) as u32,
    })
}
