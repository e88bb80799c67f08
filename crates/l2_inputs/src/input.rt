ghost use Rattle.std.specs.Prelude.{◌<◌, ◌^◌};

use thiserror::Error;

/// A file that is to be read, and how many bytes it may have.
#[derive(Clone, Copy, Debug)]
pub struct Input<'a> {
    pub name: &'a str,
    pub limit: u64,
    ghost small: { limit < 2 ^ 32 },
}

/// Why files were not read.
#[derive(Clone, Copy, Debug, PartialEq, Eq, Error)]
pub enum InputError {
    /// The shelf's count of faults in reads rose, or its files are told and lack the name.
    #[error("the file can't be read")]
    Fault,
    #[error("the file is too long")]
    TooLong,
    #[error("out of memory")]
    NoMemory,
}
