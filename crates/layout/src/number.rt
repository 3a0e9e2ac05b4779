// The paper's numbers for the cases that all answers share, and what they stand for.
ghost use Rattle.std.specs.Prelude.{◌≡◌};
ghost use Rattle.layout.specs.Numbers.{kind_number, refusal_number, IsKind, IsRefusedAt};

use crate::{Kind, Layout, Refusal, RefusedAt};

// The paper's number for a kind.
impl From<Kind> for u32 {
    ghost from_gives = { λ kind number. number ≡ kind_number kind };

    fn from(kind: Kind) -> u32 {
        kind as u32
    }
}

// The kind of a number. A number above 2 is no kind: 6.
impl TryFrom<u32> for Kind {
    type Error = Refusal;

    ghost try_from_gives = { IsKind };

    fn try_from(number: u32) -> Result<Kind, Refusal> {
        match u8::try_from(number) {
            Ok(Layout::EMPTY_KIND) => Ok(Kind::Empty),
            Ok(Layout::PATCH_KIND) => Ok(Kind::Patch),
            Ok(Layout::FULL_KIND) => Ok(Kind::Full),
            _ => Err(Refusal::Slot),
        }
    }
}

// The paper's number for a refusal.
impl From<Refusal> for u32 {
    ghost from_gives = { λ refusal number. number ≡ refusal_number refusal };

    fn from(refusal: Refusal) -> u32 {
        refusal as u32
    }
}

// A refusal that comes with no offset.
impl From<Refusal> for RefusedAt {
    ghost from_gives = { IsRefusedAt };

    fn from(refusal: Refusal) -> RefusedAt {
        RefusedAt { refusal, offset: 0 }
    }
}
