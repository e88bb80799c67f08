ghost use Rattle.std.specs.Prelude.{◌≡◌, IfOk};
ghost use Rattle.l2_status.specs.Statuses.{status_number};

use std::alloc::{AllocError, Global};

/// How a run ends.
#[derive(Clone, Copy, Debug, PartialEq, Eq)]
pub enum Status {
    Fine,
    /// The words are refused.
    Usage,
    ReadFault,
    WriteFault,
    NoMemory,
    Unknown,
    /// The text is refused.
    Refused,
    /// The second file is refused.
    FileRefused,
    TooLong,
    /// A replay ran out of choices or turns.
    Short,
    Unsafe,
}

impl Status {
    /// The exit status of the program.
    pub fn number(self) -> u8
        ensures { result ≡ status_number self }
    {
        match self {
            Status::Fine => 0,
            Status::Usage => 1,
            Status::ReadFault => 2,
            Status::WriteFault => 3,
            Status::NoMemory => 4,
            Status::Unknown => 5,
            Status::Refused => 6,
            Status::FileRefused => 7,
            Status::TooLong => 8,
            Status::Short => 9,
            Status::Unsafe => 10,
        }
    }
}

/// What a run ends with and prints, but for faults of writing.
#[derive(Debug, Drop)]
pub struct Answer {
    pub status: Status,
    /// What is printed: whole lines, each with its LF.
    pub output: Vec<u8>,
}

/// An answer whose line is the same for all words and files.
pub fn fixed(alloc: Global, status: Status, line: &str) -> Result<Answer, AllocError>
    ensures { IfOk result (λ a. (a.status ≡ status) × (a.output.items ≡ line.now)) }
{
    Ok(Answer {
        status,
        output: String::from_str(alloc, line)?.into_bytes(),
    })
}
