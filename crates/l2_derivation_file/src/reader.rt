ghost use Rattle.std.specs.Prelude.{◌≡◌, ℕ, List, IfOk, OnOk, IsErrOf, MatchResult};
ghost use Rattle.l2_lines.specs.Lines.{IsFirstBad, lines_of};
ghost use Rattle.l2_cnf.specs.Steps.{Step};
ghost use Rattle.l2_cert.specs.Certificate.{IsGoal};
ghost use Rattle.l2_derivation_file.specs.File.{IsFile, spelling};
ghost use Rattle.l2_derivation_file.specs.Reading.{Kept, ReadsLine, StopsAt};

use crate::reading::Reading;
use crate::steps::LineError;
use l2_cnf::Lines;
use l2_lines::first_line;
use std::alloc::Global;
use thiserror::Error;

/// Why bytes were not read as the steps of a derivation.
#[derive(Clone, Copy, Debug, PartialEq, Eq, Error)]
pub enum FileError {
    /// No derivation file has this line after those before it. Lines are counted from 1, and where the text ends too early
    /// the line is one past its last.
    #[error("line {line} is in no derivation file")]
    BadLine { line: u64 },
    #[error("out of memory")]
    NoMemory,
}

impl Reading {
    /// Takes the first line of a text, and gives what stands behind it.
    fn take_line<'a>(&mut self, text: &'a [u8]) -> Result<&'a [u8], LineError>
        requires { Kept self.old }
        ensures ok { IfOk result (λ rest. ReadsLine self.old self.new text.now rest.now) }
        ensures kept { OnOk result (Kept self.new) }
        ensures bad { IsErrOf result LineError.Bad → StopsAt self.old text.now }
    {
        let Some(cut) = first_line(text) else {
            return Err(LineError::Bad);
        };
        match self.take(cut.line) {
            Ok(()) => Ok(cut.rest),
            Err(error) => Err(error),
        }
    }
}

/// Reads a derivation file. The work is in proportion to its length.
pub fn read(alloc: Global, bytes: &[u8]) -> Result<Lines, FileError>
    ensures ok { IfOk result (λ steps. IsGoal steps × (bytes.now ≡ spelling steps)) }
    ensures bad_line { (line : ℕ) → IsErrOf result (FileError.BadLine line) → IsFirstBad IsFile (lines_of bytes.now) line }
    // bytes that spell steps are read as these, and as no other ones
    ensures exactly { (steps : List Step) → IsGoal steps → bytes.now ≡ spelling steps →
        MatchResult result (λ read. read ≡ steps) (λ e. e ≡ FileError.NoMemory) }
{
    let mut reading = Reading::new(alloc);
    let mut rest = bytes;
    let mut line = 1u64;
    while !rest.is_empty() {
        match reading.take_line(rest) {
            Ok(more) => rest = more,
            Err(LineError::Bad) => return Err(FileError::BadLine { line }),
            Err(LineError::NoMemory) => return Err(FileError::NoMemory),
        }
        line += 1;
    }
    if reading.is_whole() {
        Ok(reading.into_steps())
    } else {
        Err(FileError::BadLine { line })
    }
}
