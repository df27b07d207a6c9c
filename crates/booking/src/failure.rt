//! Why there is no book.

ghost use Rattle.std.specs.Prelude.{◌≡◌};

use refusal::Refusal;
use std::alloc::AllocError;

/// Why there is no book.
#[derive(Clone, Copy, PartialEq, Eq, Debug)]
pub enum Failure {
    /// The input is refused.
    Refused(Refusal),
    /// No memory was left.
    NoMemory,
}

impl From<Refusal> for Failure {
    ghost use Rattle.booking.specs.declared.failure.Failure.TheVariants.{Refused};

    ghost from_gives = { λ refusal failure. failure ≡ Refused refusal };

    fn from(refusal: Refusal) -> Failure {
        Failure::Refused(refusal)
    }
}

impl From<AllocError> for Failure {
    ghost use Rattle.booking.specs.declared.failure.Failure.TheVariants.{NoMemory};

    ghost from_gives = { λ _ failure. failure ≡ NoMemory };

    fn from(_error: AllocError) -> Failure {
        Failure::NoMemory
    }
}
