// What the calls beneath answer, as the structs of the interface: each conversion once. It is a `From` where every number fits its member by
// its type. Where only the call's promise keeps a number below 2 to the 32, it is a function, and its caller knows the promise.
ghost use Rattle.std.specs.Prelude.{◌≡◌, ◌<◌, ◌^◌};
ghost use Rattle.layout.specs.Numbers.{answer_number};
ghost use Rattle.blockmap.specs.Calls.{looked_numbers, tallied_numbers};
ghost use Rattle.stream.specs.Calls.{compared_numbers, applied_numbers};
ghost use Rattle.entry_reader.specs.Turns.{turn_numbers};
ghost use Rattle.store.specs.Judge.{judged_numbers};
ghost use Rattle.reading.specs.Read.{reading_numbers};
ghost use Rattle.carrying.specs.CarryOut.{written_numbers};
ghost use Rattle.building.specs.Build.{built_numbers};
ghost use Rattle.cutting.specs.Highest.{extent_numbers};
ghost use Rattle.thonxiliko.specs.Areas.{judged_members, part_members, read_members, written_members, built_members};
ghost use Rattle.thonxiliko.specs.Cuts.{extent_members};
ghost use Rattle.thonxiliko.specs.Maps.{pair_members, tallied_members};
ghost use Rattle.thonxiliko.specs.Pages.{compared_members, applied_members, entry_members};

use crate::{
    thx_applied, thx_built, thx_compared, thx_done, thx_entry, thx_extent, thx_judged, thx_pair,
    thx_part, thx_reading, thx_tallied, thx_written,
};
use blockmap::Tallied;
use building::RefusedIn;
use carrying::Written;
use entry_reader::{Found, Turn};
use layout::{Kind, Refusal, RefusedAt};
use payload::Sound;
use store::{Judged, Place};
use stream::Compared;

impl From<Result<(), Refusal>> for thx_done {
    ghost from_gives = { λ answer r. r.number ≡ answer_number answer };

    fn from(answer: Result<(), Refusal>) -> thx_done {
        match answer {
            Ok(()) => thx_done { number: 0 },
            Err(refusal) => thx_done {
                number: refusal.into(),
            },
        }
    }
}

impl From<Turn> for thx_entry {
    ghost from_gives = { λ turn r. entry_members r ≡ turn_numbers turn };

    fn from(turn: Turn) -> thx_entry {
        let (number, found, value) = match turn.found {
            Found::Entry { position: _, value } => (0, 1, value),
            Found::End => (0, 0, 0),
            Found::Stopped { offset: _ } => (Refusal::Payload.into(), 0, 0),
        };
        thx_entry {
            number,
            found,
            at: turn.at as u64,
            position: turn.position,
            value: value.into(),
        }
    }
}

impl From<Place> for thx_part {
    ghost from_gives = { λ place r. part_members r ≡ place };

    fn from(place: Place) -> thx_part {
        thx_part {
            at: place.at as u64,
            len: place.len as u64,
        }
    }
}

// A pair stands for the kind that was found.
impl From<Result<Kind, Refusal>> for thx_pair {
    ghost from_gives = { λ answer r. pair_members r ≡ looked_numbers answer };

    fn from(answer: Result<Kind, Refusal>) -> thx_pair {
        match answer {
            Ok(kind) => thx_pair {
                number: 0,
                pair: blockmap::pair_of(kind).into(),
            },
            Err(refusal) => thx_pair {
                number: refusal.into(),
                pair: 0,
            },
        }
    }
}

impl From<Result<Tallied, Refusal>> for thx_tallied {
    ghost from_gives = { λ answer r. tallied_members r ≡ tallied_numbers answer };

    fn from(answer: Result<Tallied, Refusal>) -> thx_tallied {
        match answer {
            Ok(tallied) => thx_tallied {
                number: 0,
                patch: tallied.patch as u64,
                full: tallied.full as u64,
            },
            Err(refusal) => thx_tallied {
                number: refusal.into(),
                patch: 0,
                full: 0,
            },
        }
    }
}

impl From<Result<usize, Refusal>> for thx_extent {
    ghost from_gives = { λ answer r. extent_members r ≡ extent_numbers answer };

    fn from(answer: Result<usize, Refusal>) -> thx_extent {
        match answer {
            Ok(blocks) => thx_extent {
                number: 0,
                blocks: blocks as u64,
            },
            Err(refusal) => thx_extent {
                number: refusal.into(),
                blocks: 0,
            },
        }
    }
}

impl thx_compared {
    pub(crate) fn of(answer: Result<Compared, Refusal>) -> thx_compared
        requires lengths { (compared_numbers answer).length < 2 ^ 32 }
        requires counts { (compared_numbers answer).entries < 2 ^ 32 }
        ensures { compared_members result ≡ compared_numbers answer }
    {
        match answer {
            Ok(compared) => thx_compared {
                number: 0,
                kind: compared.kind.into(),
                length: compared.length as u32,
                entries: compared.entries as u32,
                last: compared.last,
            },
            Err(refusal) => thx_compared {
                number: refusal.into(),
                kind: 0,
                length: 0,
                entries: 0,
                last: 0,
            },
        }
    }
}

impl thx_applied {
    pub(crate) fn of(answer: Result<Sound, RefusedAt>) -> thx_applied
        requires counts { (applied_numbers answer).entries < 2 ^ 32 }
        requires offsets { (applied_numbers answer).offset < 2 ^ 32 }
        ensures { applied_members result ≡ applied_numbers answer }
    {
        match answer {
            Ok(sound) => thx_applied {
                number: 0,
                entries: sound.entries as u32,
                last: sound.last,
                offset: 0,
            },
            Err(refused) => thx_applied {
                number: refused.refusal.into(),
                entries: 0,
                last: 0,
                offset: refused.offset as u32,
            },
        }
    }
}

impl thx_judged {
    pub(crate) fn of(answer: Result<Judged, Refusal>) -> thx_judged
        requires { (judged_numbers answer).length < 2 ^ 32 }
        ensures { judged_members result ≡ judged_numbers answer }
    {
        match answer {
            Ok(judged) => thx_judged {
                number: 0,
                kind: judged.kind.into(),
                length: judged.length as u32,
            },
            Err(refusal) => thx_judged {
                number: refusal.into(),
                kind: 0,
                length: 0,
            },
        }
    }
}

impl thx_reading {
    pub(crate) fn of(answer: Result<Kind, RefusedAt>) -> thx_reading
        requires { (reading_numbers answer).offset < 2 ^ 32 }
        ensures { read_members result ≡ reading_numbers answer }
    {
        match answer {
            Ok(kind) => thx_reading {
                number: 0,
                kind: kind.into(),
                offset: 0,
            },
            Err(refused) => thx_reading {
                number: refused.refusal.into(),
                kind: 0,
                offset: refused.offset as u32,
            },
        }
    }
}

impl thx_written {
    pub(crate) fn of(answer: Result<Written, Refusal>) -> thx_written
        requires { (written_numbers answer).length < 2 ^ 32 }
        ensures { written_members result ≡ written_numbers answer }
    {
        match answer {
            Ok(written) => thx_written {
                number: 0,
                kind: written.kind.into(),
                length: written.length as u32,
            },
            Err(refusal) => thx_written {
                number: refusal.into(),
                kind: 0,
                length: 0,
            },
        }
    }
}

impl thx_built {
    pub(crate) fn of(answer: Result<(), RefusedIn>) -> thx_built
        requires { (built_numbers answer).offset < 2 ^ 32 }
        ensures { built_members result ≡ built_numbers answer }
    {
        match answer {
            Ok(()) => thx_built {
                number: 0,
                block: 0,
                offset: 0,
            },
            Err(refused) => thx_built {
                number: refused.refusal.into(),
                block: refused.block as u64,
                offset: refused.offset as u32,
            },
        }
    }
}
