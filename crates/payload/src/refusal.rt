// An unsound payload as a refusal: 7, and the offset at which it breaks where there is room for it.
ghost use Rattle.std.specs.Prelude.{◌≡◌};
ghost use Rattle.layout.specs.declared.Refusal.TheVariants.{Payload};

use crate::Unsound;
use layout::{Refusal, RefusedAt};

impl From<Unsound> for Refusal {
    ghost from_gives = { λ _ refusal. refusal ≡ Payload };

    fn from(_unsound: Unsound) -> Refusal {
        Refusal::Payload
    }
}

impl From<Unsound> for RefusedAt {
    ghost from_gives = { λ unsound r. r ≡ record { refusal = Payload; offset = unsound.offset } };

    fn from(unsound: Unsound) -> RefusedAt {
        RefusedAt {
            refusal: Refusal::Payload,
            offset: unsound.offset,
        }
    }
}
