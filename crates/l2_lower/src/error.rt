use std::alloc::{AllocError, AllocFailed};
use thiserror::Error;

/// Why a program isn't lowered.
#[derive(Clone, Copy, Debug, PartialEq, Eq, Error)]
pub enum LowerError {
    /// Its code has more instructions than code may have.
    #[error("too many instructions")]
    TooLarge,
    /// There was no memory left.
    #[error("no memory left")]
    NoMemory,
}

impl From<AllocError> for LowerError {
    ghost use Rattle.std.specs.Prelude.{◌≡◌};
    ghost use Rattle.l2_lower.specs.declared.error.LowerError.{LowerError};
    ghost use Rattle.l2_lower.specs.declared.error.LowerError.TheVariants.{NoMemory};

    ghost from_gives = { λ e f. f ≡ NoMemory };

    fn from(_error: AllocError) -> LowerError {
        LowerError::NoMemory
    }
}

impl<T: Drop> From<AllocFailed<T>> for LowerError {
    ghost use Rattle.std.specs.Prelude.{◌≡◌};
    ghost use Rattle.l2_lower.specs.declared.error.LowerError.{LowerError};
    ghost use Rattle.l2_lower.specs.declared.error.LowerError.TheVariants.{NoMemory};

    ghost from_gives = { λ e f. f ≡ NoMemory };

    fn from(_error: AllocFailed<T>) -> LowerError {
        LowerError::NoMemory
    }
}
