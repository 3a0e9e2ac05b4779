// The layout of both areas: sizes, places, lengths, and the numbers that all calls share.
#![tactic(auto)]

pub mod area;
pub mod number;

ghost use Rattle.std.specs.Prelude.{◌≡◌};
ghost use Rattle.layout.specs.Sizes.{blocks_at_most, empty_kind, full_fields_size, full_head, full_kind, full_magic};
ghost use Rattle.layout.specs.Sizes.{full_version, header_flags, kind_at, length_at, page_at, page_size, page_size_at};
ghost use Rattle.layout.specs.Sizes.{patch_fields_size, patch_flags, patch_head, patch_kind, patch_magic, patch_version};
ghost use Rattle.layout.specs.Sizes.{payload_at, reserved_at, rest_at, room, segment, size_width, slot_at, slot_flags_at};
ghost use Rattle.layout.specs.Sizes.{slot_size, slot_size_at, version_at};

// What a slot holds, and what a comparison finds, with the paper's numbers.
#[derive(Clone, Copy, PartialEq, Eq)]
pub enum Kind {
    Empty = Layout::EMPTY_KIND as isize,
    Patch = Layout::PATCH_KIND as isize,
    Full = Layout::FULL_KIND as isize,
}

// Why a call refuses, with the paper's numbers.
#[derive(Clone, Copy, PartialEq, Eq)]
pub enum Refusal {
    Page = 1,
    Length = 2,
    Header = 3,
    Version = 4,
    Block = 5,
    Slot = 6,
    Payload = 7,
    FullPage = 8,
    Buffer = 9,
    Place = 10,
    Pair = 11,
}

// A refusal, and with a payload that is not sound the offset at which its first unsound entry starts. With any other it is the paper's 0, and no
// Option: the paper has one number for both.
#[derive(Clone, Copy, PartialEq, Eq)]
pub struct RefusedAt {
    pub refusal: Refusal,
    pub offset: usize,
}

// The layout's numbers, each once.
#[derive(Clone, Copy)]
pub struct Layout;

impl Layout {
    pub const PAGE: usize = 8192;
    // The most bytes of pages that one segment has, and so its most blocks.
    pub const SEGMENT: usize = 1073741824;

    pub const BLOCKS: usize = Self::SEGMENT / Self::PAGE;

    pub const PATCH_HEAD: usize = 512;

    pub const FULL_HEAD: usize = 4096;

    pub const SLOT: usize = 512;

    // Places in a header.
    pub const VERSION_AT: usize = 8;

    pub const FLAGS_AT: usize = 10;

    pub const PAGE_SIZE_AT: usize = 12;

    pub const SLOT_SIZE_AT: usize = 16;

    // How many bytes a size takes, and all fields of a header.
    pub const SIZE_WIDTH: usize = 4;

    pub const PATCH_FIELDS: usize = Self::SLOT_SIZE_AT + Self::SIZE_WIDTH;

    pub const FULL_FIELDS: usize = Self::PAGE_SIZE_AT + Self::SIZE_WIDTH;

    pub const PATCH_MAGIC: [u8; 8] = [80, 66, 75, 80, 65, 84, 67, 72];

    pub const FULL_MAGIC: [u8; 8] = [80, 66, 75, 70, 85, 76, 76, 0];

    pub const PATCH_VERSION: u16 = 2;

    pub const FULL_VERSION: u16 = 1;

    pub const HEADER_FLAGS: u16 = 0;

    // Places in a slot, and the payload's room.
    pub const KIND_AT: usize = 0;

    pub const SLOT_FLAGS_AT: usize = 1;

    pub const LENGTH_AT: usize = 2;

    pub const RESERVED_AT: usize = 4;

    pub const PAYLOAD_AT: usize = 8;

    pub const ROOM: usize = Self::SLOT - Self::PAYLOAD_AT;

    // The first byte of a slot of each kind.
    pub const EMPTY_KIND: u8 = 0;

    pub const PATCH_KIND: u8 = 1;

    pub const FULL_KIND: u8 = 2;

    pub const PATCH_FLAGS: u8 = 1;

    // Where the slot of a block starts in the patch area.
    pub fn slot_at(block: u32) -> usize
        ensures { result ≡ slot_at block }
    {
        Self::PATCH_HEAD + Self::SLOT * (block as usize)
    }

    // Where the page of a block starts in a full area of pages of this size.
    pub fn page_at(size: u32, block: u32) -> usize
        ensures { result ≡ page_at size block }
    {
        Self::FULL_HEAD + (size as usize) * (block as usize)
    }

    // The code's numbers are the definitions'.
    pub fn agrees()
        ensures pages { Layout.PAGE ≡ page_size }
        ensures segments { Layout.SEGMENT ≡ segment }
        ensures blocks { Layout.BLOCKS ≡ blocks_at_most page_size }
        ensures patch { Layout.PATCH_HEAD ≡ patch_head }
        ensures full { Layout.FULL_HEAD ≡ full_head }
        ensures slots { Layout.SLOT ≡ slot_size }
        ensures versions_at { Layout.VERSION_AT ≡ version_at }
        ensures rests_at { Layout.FLAGS_AT ≡ rest_at }
        ensures page_sizes_at { Layout.PAGE_SIZE_AT ≡ page_size_at }
        ensures slot_sizes_at { Layout.SLOT_SIZE_AT ≡ slot_size_at }
        ensures size_widths { Layout.SIZE_WIDTH ≡ size_width }
        ensures patch_fields { Layout.PATCH_FIELDS ≡ patch_fields_size }
        ensures full_fields { Layout.FULL_FIELDS ≡ full_fields_size }
        ensures patch_magics { Layout.PATCH_MAGIC ≡ patch_magic }
        ensures full_magics { Layout.FULL_MAGIC ≡ full_magic }
        ensures patch_versions { Layout.PATCH_VERSION ≡ patch_version }
        ensures full_versions { Layout.FULL_VERSION ≡ full_version }
        ensures header_flags { Layout.HEADER_FLAGS ≡ header_flags }
        ensures kinds_at { Layout.KIND_AT ≡ kind_at }
        ensures slot_flags_at { Layout.SLOT_FLAGS_AT ≡ slot_flags_at }
        ensures lengths_at { Layout.LENGTH_AT ≡ length_at }
        ensures reserved_at { Layout.RESERVED_AT ≡ reserved_at }
        ensures payloads_at { Layout.PAYLOAD_AT ≡ payload_at }
        ensures rooms { Layout.ROOM ≡ room }
        ensures empty_kinds { Layout.EMPTY_KIND ≡ empty_kind }
        ensures patch_kinds { Layout.PATCH_KIND ≡ patch_kind }
        ensures full_kinds { Layout.FULL_KIND ≡ full_kind }
        ensures patch_flags { Layout.PATCH_FLAGS ≡ patch_flags }
    {}
}
