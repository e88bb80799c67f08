ghost use Rattle.std.specs.Prelude.{◌≡◌, ◌<◌, ℕ, IfOk, OnOk, IsErrOf, MatchResult, length};
ghost use Rattle.l2_lines.specs.Lines.{IsFirstBad, lines_of};
ghost use Rattle.l2_cert.specs.declared.cert.Cert.{Cert as TheCert};
ghost use Rattle.l2_cert.specs.Cursor.{left};
ghost use Rattle.l2_cert.specs.Certificate.{InGrammar, IsFile, spelling};
ghost use Rattle.l2_cert.specs.Kept.{Kept};
ghost use Rattle.l2_cert.specs.Machine.{State, Goes};
ghost use Rattle.l2_cert.specs.Reading.{ReadsLine, StopsAt, cert_of, state_of};

use crate::cert::{Cert, CertError};
use crate::reading::{Reading, Stage};
use crate::steps::LineError;
use crate::words::Words;
use l2_bits::List;
use l2_lines::first_line;
use std::alloc::Global;

impl Reading {
    /// Takes the words of the next line.
    fn take(&mut self, alloc: Global, words: Words<'_>) -> Result<(), LineError>
        requires { Kept (state_of self.old) }
        ensures ok { OnOk result (Goes (state_of self.old) (left words.entry) (state_of self.new)) }
        ensures bad { IsErrOf result LineError.Bad → (t : State) → ¬ Goes (state_of self.old) (left words.entry) t }
    {
        match self.stage {
            Stage::First => self.take_first(words),
            Stage::Kind => self.take_kind(words),
            Stage::Checks => self.take_checks(words),
            Stage::Copies => self.take_copies(words),
            Stage::Loops => self.take_loops(words),
            Stage::Loop => self.take_loop(alloc, words),
            Stage::Row => self.take_row(alloc, words),
            Stage::Ranks => self.take_ranks(alloc, words),
            Stage::Rank => self.take_component(alloc, words),
            Stage::Goals => self.take_goals(words),
            Stage::Goal => self.take_goal(alloc, words),
            Stage::Step => self.take_step(alloc, words),
            Stage::End => self.take_end(words),
            Stage::Over => Err(LineError::Bad),
        }
    }

    /// Takes the first line of a text, and gives what stands behind it.
    fn take_line<'a>(&mut self, alloc: Global, text: &'a [u8]) -> Result<&'a [u8], LineError>
        requires { Kept (state_of self.old) }
        ensures ok { IfOk result (λ rest. ReadsLine (state_of self.old) (state_of self.new) text.now rest.now) }
        ensures bad { IsErrOf result LineError.Bad → StopsAt (state_of self.old) text.now }
    {
        let Some(cut) = first_line(text) else {
            return Err(LineError::Bad);
        };
        match self.take(alloc, Words::new(cut.line)) {
            Ok(()) => Ok(cut.rest),
            Err(error) => Err(error),
        }
    }

    fn into_cert(self) -> Cert
        ensures { result ≡ cert_of self }
    {
        let Reading {
            kind,
            overflow,
            k,
            point,
            ranks,
            goals,
            ..
        } = self;
        Cert {
            kind,
            overflow,
            k,
            point,
            ranks,
            goals: List::new(goals),
        }
    }
}

/// Reads a certificate file. The work is in proportion to its length.
pub fn read(alloc: Global, bytes: &[u8]) -> Result<Cert, CertError>
    ensures ok { IfOk result (λ c. InGrammar c × (bytes.now ≡ spelling c)) }
    ensures bad_line { (line : ℕ) → IsErrOf result (CertError.BadLine line) → IsFirstBad IsFile (lines_of bytes.now) line }
    // bytes that spell a certificate are read as this one, and as no other
    ensures exactly { (c : TheCert) → InGrammar c → bytes.now ≡ spelling c →
        MatchResult result (λ d. d ≡ c) (λ e. e ≡ CertError.NoMemory) }
{
    let mut reading = Reading::new(alloc);
    let mut rest = bytes;
    let mut line = 1u64;
    while !rest.is_empty() {
        match reading.take_line(alloc, rest) {
            Ok(more) => rest = more,
            Err(LineError::Bad) => return Err(CertError::BadLine { line }),
            Err(LineError::NoMemory) => return Err(CertError::NoMemory),
        }
        line += 1;
    }
    match reading.stage {
        Stage::Over => Ok(reading.into_cert()),
        _ => Err(CertError::BadLine { line }),
    }
}
