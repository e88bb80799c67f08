use std::alloc::{AllocError, AllocFailed};
use thiserror::Error;

/// Why a tree has no small one.
#[derive(Clone, Copy, Debug, PartialEq, Eq, Error)]
pub enum SmallError {
    /// The text isn't of the small form.
    #[error("not of the small form")]
    NotSmall,
    #[error("out of memory")]
    NoMemory,
}

impl From<AllocError> for SmallError {
    ghost use Rattle.std.specs.Prelude.{◌≡◌};
    ghost use Rattle.l2_small.specs.declared.error.SmallError.{SmallError};
    ghost use Rattle.l2_small.specs.declared.error.SmallError.TheVariants.{NoMemory};

    ghost from_gives = { λ e f. f ≡ NoMemory };

    fn from(_error: AllocError) -> SmallError {
        SmallError::NoMemory
    }
}

impl<T: Drop> From<AllocFailed<T>> for SmallError {
    ghost use Rattle.std.specs.Prelude.{◌≡◌};
    ghost use Rattle.l2_small.specs.declared.error.SmallError.{SmallError};
    ghost use Rattle.l2_small.specs.declared.error.SmallError.TheVariants.{NoMemory};

    ghost from_gives = { λ e f. f ≡ NoMemory };

    fn from(_error: AllocFailed<T>) -> SmallError {
        SmallError::NoMemory
    }
}
