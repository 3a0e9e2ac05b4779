// Build the block map.
#![tactic(auto)]

ghost use Rattle.std.specs.Prelude.{◌≤◌, ◌≡◌, length};
ghost use Rattle.span.specs.Bytes.{splice};
ghost use Rattle.layout.specs.Sizes.{page_size, segment};
ghost use Rattle.layout.specs.Numbers.{kind_number};
ghost use Rattle.layout.specs.FirstFault.{first_fault};
ghost use Rattle.blockmap.specs.Pairs.{map_bytes};
ghost use Rattle.blockmap.specs.Pack.{pair_of, pair_in, packed_byte, packed};
ghost use Rattle.building.specs.Build.{block_fault, built_numbers, IsRefusedIn, Build};
ghost use Rattle.building.specs.Steps.{strays_in, finding_numbers, block_finding, fault_numbers, kind_pair};

use layout::{Kind, Layout, Refusal, RefusedAt};
use slots::SlotState;
use store::areas::Areas;

// Why Build refuses: with a slot, payload, full page or place that is wrong comes its block, and with a payload the offset at which its
// first unsound entry starts; with any other refusal, 0.
#[derive(Clone, Copy, PartialEq, Eq)]
pub struct RefusedIn {
    pub refusal: Refusal,
    pub block: usize,
    pub offset: usize,
}

// A refusal that comes with neither block nor offset.
impl From<Refusal> for RefusedIn {
    ghost from_gives = { IsRefusedIn };

    fn from(refusal: Refusal) -> RefusedIn {
        RefusedIn {
            refusal,
            block: 0,
            offset: 0,
        }
    }
}

// Stray bytes in the place of a block whose slot is not FULL_REF.
#[tactic(auto, using(crate::specs::BuildLaws::no_place, crate::specs::BuildLaws::clean_place, crate::specs::BuildLaws::stray_place))]
fn check_place(areas: Areas<'_>, block: u32) -> Result<(), RefusedAt>
    ensures { finding_numbers result ≡ record { number = strays_in areas.entry.frame.size areas.entry.full.now block; offset = 0 } }
{
    let Some(place) = areas.place(block) else {
        return Ok(());
    };
    if span::all_zero(place) {
        return Ok(());
    }
    Err(Refusal::Place.into())
}

// What is wrong first with one block: its slot, a full page that is not there, its payload, its place.
#[tactic(auto, using(crate::proofs::BuildTold::told_empty, crate::proofs::BuildTold::told_full, crate::proofs::BuildTold::told_full_none))]
fn check_block(areas: Areas<'_>, block: u32) -> Result<(), RefusedAt>
    ensures { finding_numbers result ≡ block_finding areas.entry.frame.size areas.entry.patch.now areas.entry.full.now block }
{
    let slot = areas.slot(block);
    match slots::slot_state(slot)? {
        SlotState::Empty => check_place(areas, block),
        SlotState::Patch(n) => {
            let payload = span::part(slot, Layout::PAYLOAD_AT, n);
            payload::check(payload, areas.frame.size as usize)?;
            check_place(areas, block)
        }
        SlotState::Full => {
            if areas.frame.m <= block {
                return Err(Refusal::FullPage.into());
            }
            Ok(())
        }
    }
}

// The first fault of all blocks in rising order, with its block.
#[tactic(auto, using(layout::specs::FirstFaultLaws::fault_next, layout::specs::FirstFaultLaws::fault_here))]
fn check_blocks(areas: Areas<'_>) -> Result<(), RefusedIn>
    ensures { built_numbers result ≡ fault_numbers areas.entry.frame.size areas.entry.patch.now
        (first_fault (block_fault areas.entry.frame.size areas.entry.patch.now areas.entry.full.now) 0 areas.entry.frame.n) }
{
    for block in 0..areas.frame.n {
        if let Err(RefusedAt { refusal, offset }) = check_block(areas, block) {
            return Err(RefusedIn {
                refusal,
                block: block as usize,
                offset,
            });
        }
    }
    Ok(())
}

// The kind that the first byte of a sound slot stands for. No `TryFrom`: any byte that is no kind counts as FULL_REF, as in the definition.
#[tactic(auto, using(crate::specs::MapLaws::pair_full))]
fn kind_of(byte: u8) -> Kind
    ensures { pair_of (kind_number result) ≡ pair_of byte }
{
    match byte {
        Layout::EMPTY_KIND => Kind::Empty,
        Layout::PATCH_KIND => Kind::Patch,
        _ => Kind::Full,
    }
}

// The pair of a block in the map of these slots, all of them sound: by its slot's first byte alone. An unused pair is 0.
#[tactic(auto, using(blockmap::specs::PackLaws::pair_used, blockmap::specs::PackLaws::pair_unused), unfolding(crate::specs::Steps::kind_pair))]
fn pair_at(areas: Areas<'_>, block: usize) -> u8
    ensures { result ≡ pair_in (kind_pair areas.entry.patch.now) areas.entry.frame.n block }
{
    if areas.frame.n as usize <= block {
        return 0;
    }
    let at = Layout::slot_at(block as u32) + Layout::KIND_AT;
    blockmap::pair_of(kind_of(areas.patch[at]))
}

// One byte of the map: four blocks' pairs.
#[tactic(auto, unfolding(blockmap::specs::Pack::packed_byte))]
fn map_byte(areas: Areas<'_>, at: usize) -> u8
    requires { at ≤ segment }
    ensures { result ≡ packed_byte (kind_pair areas.entry.patch.now) areas.entry.frame.n at }
{
    let block = 4 * at;
    blockmap::byte_of(
        pair_at(areas, block),
        pair_at(areas, block + 1),
        pair_at(areas, block + 2),
        pair_at(areas, block + 3),
    )
}

// The map of blocks whose slots are sound. Later bytes of the buffer stay.
#[tactic(auto, using(crate::specs::MapLaws::map_turn, span::specs::Laws::splice_none), unfolding(blockmap::specs::Pack::packed_first))]
fn write_map(areas: Areas<'_>, map: &mut [u8])
    requires { map_bytes areas.frame.n ≤ length map.old }
    ensures { map.new ≡ splice map.old 0 (packed (kind_pair areas.entry.patch.now) areas.entry.frame.n) }
{
    let bytes = blockmap::map_bytes(areas.frame.n as usize);
    for (at, byte) in map[..bytes].iter_mut().enumerate() {
        *byte = map_byte(areas, at);
    }
}

// Every slot, payload and place is checked before the map's first byte is written.
pub fn build(patch: &[u8], full: &[u8], map: &mut [u8]) -> Result<(), RefusedIn>
    ensures { Build page_size patch.now full.now map.old result map.new }
{
    let needed = blockmap::map_bytes(layout::area::blocks(patch.len()));
    let areas = Areas::open(Layout::PAGE as u32, true, needed <= map.len(), patch, full)?;
    check_blocks(areas)?;
    write_map(areas, map);
    Ok(())
}
