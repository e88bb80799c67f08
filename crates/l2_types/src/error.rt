use std::alloc::{AllocError, AllocFailed};
use thiserror::Error;

/// Why no answer is given.
#[derive(Clone, Copy, Debug, PartialEq, Eq, Error)]
pub enum CheckError {
    #[error("out of memory")]
    NoMemory,
}

impl From<AllocError> for CheckError {
    ghost use Rattle.std.specs.Prelude.{◌≡◌};
    ghost use Rattle.l2_types.specs.declared.error.CheckError.{CheckError};
    ghost use Rattle.l2_types.specs.declared.error.CheckError.TheVariants.{NoMemory};

    ghost from_gives = { λ e f. f ≡ NoMemory };

    fn from(_error: AllocError) -> CheckError {
        CheckError::NoMemory
    }
}

impl<T: Drop> From<AllocFailed<T>> for CheckError {
    ghost use Rattle.std.specs.Prelude.{◌≡◌};
    ghost use Rattle.l2_types.specs.declared.error.CheckError.{CheckError};
    ghost use Rattle.l2_types.specs.declared.error.CheckError.TheVariants.{NoMemory};

    ghost from_gives = { λ e f. f ≡ NoMemory };

    fn from(_error: AllocFailed<T>) -> CheckError {
        CheckError::NoMemory
    }
}
