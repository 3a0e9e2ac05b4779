// A decision on a block, as it is lent and as it is stored.
ghost use Rattle.std.specs.Prelude.{◌≡◌, ◌≤◌, length};
ghost use Rattle.layout.specs.Sizes.{room};

use layout::Kind;

// A decision as a call lends it. Its kind is any number: one that is no kind is refused in its place, after the frame and the block.
#[derive(Clone, Copy)]
pub(crate) struct Asked<'a> {
    pub(crate) kind: u32,
    pub(crate) payload: &'a [u8],
    pub(crate) page: &'a [u8],
}

// What of it is stored, once nothing is wrong with it: the payload is empty unless it is a patch.
#[derive(Clone, Copy)]
pub(crate) struct Stored<'a> {
    pub(crate) kind: Kind,
    pub(crate) payload: &'a [u8],
    pub(crate) page: &'a [u8],
    ghost few: { length payload.now ≤ room },
}
