// What a run is made on: both areas, lent to each of its operations, with a map or without one.
ghost use Rattle.std.specs.Prelude.{ℕ, ◌≡◌, Bool, List, [], ◌∷◌};
ghost use Rattle.std.proofs.Math.Option.{Option, some};
ghost use Rattle.layout.specs.Sizes.{page_size};
ghost use Rattle.layout.specs.Numbers.{kind_number};
ghost use Rattle.promises.specs.Runs.{write, wipe};
ghost use Rattle.promises.specs.RunWords.{Areas, Operation, outcome, cutting, takes_by, does_by};
ghost use Rattle.promises.specs.MapWords.{Mapped, mapped, cut_mapped, takes_with_by, does_with_by};
ghost use Rattle.promises.specs.MapStore.{with};
ghost use Rattle.replay.specs.Operations.{both, answer_mark, Made};

use layout::{Kind, Refusal};

// Every write of a run is told all.
const ALL: usize = 2;

// The bytes that are lent are a state. `takes` says whether an operation is accepted in it, and `does` which state it leaves. `names` tells the
// lent buffers apart from others: no call puts another one in their place.
pub(crate) trait Lent {
    ghost State: { Type 0 };

    ghost state: { Self → State };

    ghost names: { Self → List ℕ };

    ghost takes: { State → Operation → Bool };

    ghost does: { State → Operation → State };

    // Carries out a decision on a block.
    fn carry(
        &mut self,
        block: usize,
        kind: Kind,
        payload: &[u8],
        page: &[u8],
    ) -> Result<(), Refusal>
        ensures made { Made takes does (state self.old)
            (some (write (record { block = block; decision = record { kind = kind_number kind; payload = payload.now; page = page.now } })))
            (answer_mark result) (state self.new) }
        ensures named { names self.new ≡ names self.old };

    // Drops blocks k and up.
    fn cut(&mut self, k: usize) -> Result<(), Refusal>
        ensures made { Made takes does (state self.old) (some (wipe k)) (answer_mark result) (state self.new) }
        ensures named { names self.new ≡ names self.old };
}

// Both areas alone.
#[derive(Drop)]
pub(crate) struct Alone<'a> {
    pub(crate) patch: &'a mut [u8],
    pub(crate) full: &'a mut [u8],
}

impl Lent for Alone<'_> {
    ghost State = { Areas };

    ghost state = { λ s. both s.patch.now s.full.now };

    ghost names = { λ s. s.patch.ghost_name ∷ s.full.ghost_name ∷ [] };

    ghost takes = { takes_by (outcome page_size) (cutting page_size) };

    ghost does = { does_by (outcome page_size) (cutting page_size) };

    fn carry(
        &mut self,
        block: usize,
        kind: Kind,
        payload: &[u8],
        page: &[u8],
    ) -> Result<(), Refusal> {
        carrying::carry_out(
            self.patch,
            self.full,
            block,
            u32::from(kind),
            payload,
            page,
            ALL,
        )?;
        Ok(())
    }

    fn cut(&mut self, k: usize) -> Result<(), Refusal> {
        cutting::cut(self.patch, self.full, k)
    }
}

// Both areas and a map.
#[derive(Drop)]
pub(crate) struct WithMap<'a> {
    pub(crate) patch: &'a mut [u8],
    pub(crate) full: &'a mut [u8],
    pub(crate) map: &'a mut [u8],
}

impl Lent for WithMap<'_> {
    ghost State = { Mapped };

    ghost state = { λ s. with (both s.patch.now s.full.now) s.map.now };

    ghost names = { λ s. s.patch.ghost_name ∷ s.full.ghost_name ∷ s.map.ghost_name ∷ [] };

    ghost takes = { takes_with_by (mapped page_size) (cut_mapped page_size) };

    ghost does = { does_with_by (mapped page_size) (cut_mapped page_size) };

    fn carry(
        &mut self,
        block: usize,
        kind: Kind,
        payload: &[u8],
        page: &[u8],
    ) -> Result<(), Refusal> {
        carrying::mapped::carry_out_mapped(
            self.patch,
            self.full,
            self.map,
            block,
            u32::from(kind),
            payload,
            page,
            ALL,
        )?;
        Ok(())
    }

    fn cut(&mut self, k: usize) -> Result<(), Refusal> {
        cutting::mapped::cut_mapped(self.patch, self.full, self.map, k)
    }
}
