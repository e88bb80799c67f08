use std::alloc::{AllocError, AllocFailed};
use thiserror::Error;

/// Why nothing is built.
#[derive(Clone, Copy, Debug, PartialEq, Eq, Error)]
pub enum BuildError {
    /// The parts are those of no such construct.
    #[error("no such construct")]
    Misfit,
    /// There was no memory left.
    #[error("no memory left")]
    NoMemory,
}

impl From<AllocError> for BuildError {
    ghost use Rattle.std.specs.Prelude.{◌≡◌};
    ghost use Rattle.l2_build.specs.declared.error.BuildError.{BuildError};
    ghost use Rattle.l2_build.specs.declared.error.BuildError.TheVariants.{NoMemory};

    ghost from_gives = { λ e f. f ≡ NoMemory };

    fn from(_error: AllocError) -> BuildError {
        BuildError::NoMemory
    }
}

impl<T: Drop> From<AllocFailed<T>> for BuildError {
    ghost use Rattle.std.specs.Prelude.{◌≡◌};
    ghost use Rattle.l2_build.specs.declared.error.BuildError.{BuildError};
    ghost use Rattle.l2_build.specs.declared.error.BuildError.TheVariants.{NoMemory};

    ghost from_gives = { λ e f. f ≡ NoMemory };

    fn from(_error: AllocFailed<T>) -> BuildError {
        BuildError::NoMemory
    }
}
