use std::alloc::{AllocError, AllocFailed};
use thiserror::Error;

/// What of a program is shown.
#[derive(Clone, Copy, Debug, PartialEq, Eq)]
pub enum View {
    /// Its code.
    Goto,
    /// Its loops, with what each of them changes.
    Loops,
}

/// Which rows an invariant may have.
#[derive(Clone, Copy, Debug, PartialEq, Eq)]
pub enum DomainName {
    NoRows,
    Equalities,
    Intervals,
    Zones,
    Octagons,
}

/// How a text is decided.
#[derive(Clone, Copy, Debug)]
pub struct Deciding<'a> {
    pub file: &'a str,
    /// The most copies of a loop's turn.
    pub unwind: u32,
    pub domain: DomainName,
    /// Whether signed overflow is checked.
    pub overflow: bool,
    /// The file into which the certificate is written.
    pub certificate: Option<&'a str>,
}

/// What a line of words asks for.
#[derive(Clone, Copy, Debug)]
pub enum Request<'a> {
    /// `verify FILE`
    Verify(Deciding<'a>),
    /// `termination FILE`
    Termination(Deciding<'a>),
    /// `check FILE CERT`
    Check {
        file: &'a str,
        certificate: &'a str,
        jobs: u32,
    },
    /// `replay FILE VALUES`
    Replay {
        file: &'a str,
        values: &'a str,
        overflow: bool,
    },
    /// `show goto FILE`, `show loops FILE`
    Show {
        view: View,
        file: &'a str,
        overflow: bool,
    },
    /// `generate N`
    Generate {
        seed: u32,
        loops: u32,
    },
}

/// Why words ask for nothing.
#[derive(Clone, Copy, Debug, PartialEq, Eq, Error)]
pub enum WordsError {
    #[error("the words are no command")]
    Usage,
    #[error("out of memory")]
    NoMemory,
}

impl From<AllocError> for WordsError {
    ghost use Rattle.std.specs.Prelude.{◌≡◌};
    ghost use Rattle.l2_words.specs.declared.request.WordsError.{WordsError};
    ghost use Rattle.l2_words.specs.declared.request.WordsError.TheVariants.{NoMemory};

    ghost from_gives = { λ e f. f ≡ NoMemory };

    fn from(_error: AllocError) -> WordsError {
        WordsError::NoMemory
    }
}

impl<T: Drop> From<AllocFailed<T>> for WordsError {
    ghost use Rattle.std.specs.Prelude.{◌≡◌};
    ghost use Rattle.l2_words.specs.declared.request.WordsError.{WordsError};
    ghost use Rattle.l2_words.specs.declared.request.WordsError.TheVariants.{NoMemory};

    ghost from_gives = { λ e f. f ≡ NoMemory };

    fn from(_error: AllocFailed<T>) -> WordsError {
        WordsError::NoMemory
    }
}
