// A refusal that hands back what was moved into the call.
ghost use Rattle.std.specs.Prelude.{◌≡◌};

use crate::refusal::Refusal;

/// Why a call said no, and what it was called on.
#[derive(Drop)]
pub struct Refused<T> {
    pub why: Refusal,
    pub back: T,
}

impl<T: Drop> From<Refused<T>> for Refusal {
    ghost from_gives = { λ refused why. why ≡ refused.why };

    fn from(refused: Refused<T>) -> Refusal {
        refused.why
    }
}
