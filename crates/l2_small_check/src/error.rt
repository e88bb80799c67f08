use std::alloc::{AllocError, AllocFailed};
use thiserror::Error;

/// Why a unit has no program.
#[derive(Clone, Copy, Debug, PartialEq, Eq, Error)]
pub enum CheckError {
    /// A name is declared a second time or used where it isn't in scope, a constant is no value of `int`, or there are more
    /// than 65,536 cells.
    #[error("a name is declared twice or isn't in scope, a constant is too large, or there are too many cells")]
    NotSmall,
    #[error("out of memory")]
    NoMemory,
}

impl From<AllocError> for CheckError {
    ghost use Rattle.std.specs.Prelude.{◌≡◌};
    ghost use Rattle.l2_small_check.specs.declared.error.CheckError.{CheckError};
    ghost use Rattle.l2_small_check.specs.declared.error.CheckError.TheVariants.{NoMemory};

    ghost from_gives = { λ e f. f ≡ NoMemory };

    fn from(_error: AllocError) -> CheckError {
        CheckError::NoMemory
    }
}

impl<T: Drop> From<AllocFailed<T>> for CheckError {
    ghost use Rattle.std.specs.Prelude.{◌≡◌};
    ghost use Rattle.l2_small_check.specs.declared.error.CheckError.{CheckError};
    ghost use Rattle.l2_small_check.specs.declared.error.CheckError.TheVariants.{NoMemory};

    ghost from_gives = { λ e f. f ≡ NoMemory };

    fn from(_error: AllocFailed<T>) -> CheckError {
        CheckError::NoMemory
    }
}
