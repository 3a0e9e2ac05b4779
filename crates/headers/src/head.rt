// The header of an area: written, and checked. Both areas have one of the same shape.
ghost use Rattle.std.specs.Prelude.{◌≡◌, ◌+◌, ◌-◌, ◌≤◌, ◌++◌, length, take};
ghost use Rattle.span.specs.Bytes.{zeros, part, same as same_bytes};
ghost use Rattle.layout.specs.Sizes.{patch_fields_size};
ghost use Rattle.layout.specs.Numbers.{answer_number};
ghost use Rattle.layout.specs.Refusals.{first_of};
ghost use Rattle.headers.specs.Headers.{head_rows};
ghost use Rattle.headers.specs.Stored.{size_rows};

use crate::stored_size;
use layout::{Layout, Refusal};

// What a header has of its own. Its other fields are the same in both areas, and zeros follow them up to its length.
#[derive(Clone, Copy)]
pub(crate) struct Head {
    magic: [u8; 8],
    version: u16,
    slot_size: u32,
    length: usize,
    ghost has_fields: { patch_fields_size ≤ length },
}

impl Head {
    ghost use Rattle.headers.specs.Head.{fields, image};

    pub(crate) const PATCH: Self = Head {
        magic: Layout::PATCH_MAGIC,
        version: Layout::PATCH_VERSION,
        slot_size: Layout::SLOT as u32,
        length: Layout::PATCH_HEAD,
    };

    // The full header has no slot size: zeros stand there, as after its other fields.
    pub(crate) const FULL: Self = Head {
        magic: Layout::FULL_MAGIC,
        version: Layout::FULL_VERSION,
        slot_size: 0,
        length: Layout::FULL_HEAD,
    };

    // Magic, version, flags, page size, slot size.
    fn fields(self, size: u32) -> [u8; Layout::PATCH_FIELDS]
        ensures { result ≡ fields self size }
    {
        let magic = self.magic;
        let version = self.version.to_le_bytes();
        let flags = Layout::HEADER_FLAGS.to_le_bytes();
        let page = size.to_le_bytes();
        let slot = self.slot_size.to_le_bytes();
        // Byte by byte: after five `copy_from_slice` the check found no proof of the array's length.
        [
            magic[0], magic[1], magic[2], magic[3], magic[4], magic[5], magic[6], magic[7],
            version[0], version[1], flags[0], flags[1], page[0], page[1], page[2], page[3],
            slot[0], slot[1], slot[2], slot[3],
        ]
    }

    // Whether an area has this header for pages of this size, to the byte.
    #[inline(always)]
    fn is_in(self, size: u32, area: &[u8]) -> bool
        ensures { result ≡ same_bytes (part 0 self.length area.now) (image self size) }
    {
        let fields = self.fields(size);
        let n = fields.len();
        // As an array, whose length is a constant: `starts_with` stayed a call (1.2 times as slow).
        match area.first_chunk() {
            Some(start) => *start == fields && span::zero_part(area, n, self.length - n),
            None => false,
        }
    }

    // Magic, version, then the rest: what is wrong first with an area that should have this header for pages of this size.
    #[tactic(auto, using(crate::proofs::Images::rows_are), unfolding(crate::specs::HeaderLaws::head_number, layout::specs::Refusals::or_else))]
    fn check_image(self, size: u32, area: &[u8]) -> Result<(), Refusal>
        ensures { answer_number result ≡ first_of (head_rows (image self size) self.length area.now) }
    {
        let fields = self.fields(size);
        let n = fields.len();
        if !differ::same_part(area, &fields, 0, Layout::VERSION_AT) {
            return Err(Refusal::Header);
        }
        let version_width = Layout::FLAGS_AT - Layout::VERSION_AT;
        if !differ::same_part(area, &fields, Layout::VERSION_AT, version_width) {
            return Err(Refusal::Version);
        }
        if !differ::same_part(area, &fields, Layout::FLAGS_AT, n - Layout::FLAGS_AT) {
            return Err(Refusal::Header);
        }
        if !span::zero_part(area, n, self.length - n) {
            return Err(Refusal::Header);
        }
        Ok(())
    }

    // What is wrong first with this header in an area of pages of this size: one look where nothing is.
    // Inlined, and the look with it: it takes 1.5 times as long where one code serves both areas.
    #[inline(always)]
    pub(crate) fn check(self, size: u32, area: &[u8]) -> Result<(), Refusal>
        ensures { answer_number result ≡ first_of (head_rows (image self size) self.length area.now) }
    {
        if self.is_in(size, area) {
            return Ok(());
        }
        self.check_image(stored_size(area), area)?;
        check_size(size, area)
    }

    // This header for pages of this size and then zeros, as far as the area goes.
    pub(crate) fn begin(self, size: u32, area: &mut [u8])
        ensures { area.new ≡ take (length area.old) (image self size ++ zeros (length area.old - self.length)) }
    {
        span::fill(area);
        span::copy(area, &self.fields(size));
    }
}

// A header that gives another page size than this is wrong.
#[tactic(auto, using(crate::proofs::Images::same_size, crate::proofs::Images::other_size))]
fn check_size(size: u32, area: &[u8]) -> Result<(), Refusal>
    ensures { answer_number result ≡ first_of (size_rows size area.now) }
{
    if stored_size(area) == size {
        return Ok(());
    }
    Err(Refusal::Header)
}
