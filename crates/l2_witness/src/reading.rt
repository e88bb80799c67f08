ghost use Rattle.std.specs.Prelude.{◌≡◌, ◌≢◌, ◌↔◌, [], ◌∷◌, ◌++◌, ◌<◌, ◌≤◌, ℕ, ℤ, List, codes, length, IsTrue, IfOk, OnOk, OnErr, IsErrOf, MatchOption};
ghost use Rattle.std.specs.Fmt.{decimal, signed_decimal};
ghost use Rattle.l2_lines.specs.Lines.{Begins, GoesOnInNone, ended, lines_of};
ghost use Rattle.l2_witness.specs.ValuesFile.{IsChoice, IsFile, choice_line, header, last_line, turns_line};
ghost use Rattle.l2_witness.specs.Read.{Keeps, ReadsLine, seen};

use l2_lines::{first_line, read_natural, read_whole, strip};
use std::alloc::Global;

/// What the next line is to be.
#[derive(Clone, Copy, Debug, PartialEq, Eq)]
pub enum Stage {
    Header,
    Turns,
    /// A choice, or the last line.
    Choices,
    /// None.
    Over,
}

/// Why a line was not taken.
#[derive(Clone, Copy, Debug, PartialEq, Eq)]
pub enum LineError {
    Bad,
    NoMemory,
}

/// A values file that is being read.
#[derive(Debug, Drop)]
pub struct Reading {
    pub stage: Stage,
    pub turns: u64,
    pub choices: Vec<i128>,
}

const MOST_TURNS: u128 = 100_000_000;

const LEAST_CHOICE: i128 = -(1 << 63);

const MOST_CHOICE: i128 = (1 << 64) - 1;

/// The number of turns that a line tells.
fn turns_of(line: &[u8]) -> Option<u64>
    ensures { MatchOption result
        ((turns : ℕ) → turns ≤ 100000000 → line.now ≢ codes "turns " ++ decimal turns)
        (λ turns. (turns ≤ 100000000) × (line.now ≡ codes "turns " ++ decimal turns)) }
{
    let word = strip(line, b"turns ")?;
    match read_natural(word, MOST_TURNS) {
        Some(turns) => Some(turns as u64),
        None => None,
    }
}

/// Whether a number may be a choice.
fn is_choice(number: i128) -> bool
    ensures { IsTrue result ↔ IsChoice number }
{
    LEAST_CHOICE <= number && number <= MOST_CHOICE
}

/// The choice that a line tells.
fn choice_of(line: &[u8]) -> Option<i128>
    ensures { MatchOption result
        ((choice : ℤ) → IsChoice choice → line.now ≢ codes "choice " ++ signed_decimal choice)
        (λ choice. IsChoice choice × (line.now ≡ codes "choice " ++ signed_decimal choice)) }
{
    let word = strip(line, b"choice ")?;
    match read_whole(word) {
        Some(choice) if is_choice(choice) => Some(choice),
        _ => None,
    }
}

impl Reading {
    pub fn new(alloc: Global) -> Reading
        ensures seen { seen result ≡ [] }
        ensures keeps { Keeps result }
    {
        Reading {
            stage: Stage::Header,
            turns: 0,
            choices: Vec::new(alloc),
        }
    }

    /// Takes the first line, given without its LF.
    fn take_header(&mut self, line: &[u8]) -> Result<(), LineError>
        requires stage { self.old.stage ≡ Stage.Header }
        requires keeps { Keeps self.old }
        ensures ok { OnOk result (seen self.new ≡ ended line.now ∷ []) }
        ensures bad { OnErr result (ended line.now ≢ header) }
        ensures keeps { Keeps self.new }
    {
        if line != b"2ls values 1".as_slice() {
            return Err(LineError::Bad);
        }
        self.stage = Stage::Turns;
        Ok(())
    }

    /// Takes the second line.
    fn take_turns(&mut self, line: &[u8]) -> Result<(), LineError>
        requires stage { self.old.stage ≡ Stage.Turns }
        requires keeps { Keeps self.old }
        ensures ok { OnOk result (seen self.new ≡ header ∷ ended line.now ∷ []) }
        ensures bad { OnErr result ((turns : ℕ) → turns ≤ 100000000 → ended line.now ≢ turns_line turns) }
        ensures keeps { Keeps self.new }
    {
        let Some(turns) = turns_of(line) else {
            return Err(LineError::Bad);
        };
        self.turns = turns;
        self.stage = Stage::Choices;
        Ok(())
    }

    /// Takes a choice, or the last line.
    fn take_choice(&mut self, line: &[u8]) -> Result<(), LineError>
        requires stage { self.old.stage ≡ Stage.Choices }
        requires keeps { Keeps self.old }
        ensures ok { OnOk result (seen self.new ≡ seen self.old ++ ended line.now ∷ []) }
        ensures last { IsErrOf result LineError.Bad → ended line.now ≢ last_line }
        ensures bad { IsErrOf result LineError.Bad → (choice : ℤ) → IsChoice choice → ended line.now ≢ choice_line choice }
        ensures keeps { Keeps self.new }
    {
        if line == b"end".as_slice() {
            self.stage = Stage::Over;
            return Ok(());
        }
        let Some(choice) = choice_of(line) else {
            return Err(LineError::Bad);
        };
        match self.choices.push(choice) {
            Ok(()) => Ok(()),
            Err(_) => Err(LineError::NoMemory),
        }
    }

    /// Takes the next line, given without its LF.
    fn take(&mut self, line: &[u8]) -> Result<(), LineError>
        requires { Keeps self.old }
        ensures ok { OnOk result (seen self.new ≡ seen self.old ++ ended line.now ∷ []) }
        ensures bad { IsErrOf result LineError.Bad → ¬ Begins IsFile (seen self.old ++ ended line.now ∷ []) }
        ensures keeps { Keeps self.new }
    {
        match self.stage {
            Stage::Header => self.take_header(line),
            Stage::Turns => self.take_turns(line),
            Stage::Choices => self.take_choice(line),
            Stage::Over => Err(LineError::Bad),
        }
    }

    /// Takes the first line of a text, and gives what stands behind it.
    pub fn take_first<'a>(&mut self, text: &'a [u8]) -> Result<&'a [u8], LineError>
        requires keeps { Keeps self.old }
        requires some { 0 < length text.now }
        ensures ok { IfOk result (λ rest. ReadsLine self.old self.new text.now rest.now) }
        ensures bad { IsErrOf result LineError.Bad → GoesOnInNone IsFile (seen self.old) (lines_of text.now) }
        ensures keeps { Keeps self.new }
    {
        let Some(cut) = first_line(text) else {
            return Err(LineError::Bad);
        };
        match self.take(cut.line) {
            Ok(()) => Ok(cut.rest),
            Err(error) => Err(error),
        }
    }
}
