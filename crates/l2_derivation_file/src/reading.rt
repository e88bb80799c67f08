ghost use Rattle.std.specs.Prelude.{◌≡◌, ◌≢◌, ◌≤◌, ◌<◌, ◌^◌, [], ℕ, OnOk, IsErrOf, MatchOption, MatchBool, List, ◌↔◌};
ghost use Rattle.l2_cnf.specs.Steps.{Step};
ghost use Rattle.l2_derivation_file.specs.File.{count_text};
ghost use Rattle.l2_derivation_file.specs.Reading.{Completes, Goes, Kept, Stops};

use crate::steps::{LineError, read_step};
use crate::words::Words;
use l2_cnf::{Lines, Lit};
use l2_lines::{read_natural, strip};
use std::alloc::Global;

/// What the next line is to be.
#[derive(Clone, Copy, Debug, PartialEq, Eq)]
pub enum Stage {
    Header,
    /// The number of steps.
    Count,
    /// A step, or the last line.
    Steps,
    /// None.
    Over,
}

/// A derivation file that is being read.
#[derive(Drop)]
pub struct Reading {
    pub stage: Stage,
    /// How many steps are still to come.
    pub to_come: u64,
    pub steps: Lines,
    /// Room for a step's parts.
    pub clause: Vec<Lit>,
    pub hints: Vec<u64>,
}

const MOST_STEPS: u128 = (1 << 62) - 1;

/// The number of steps that a line tells.
fn count_of(line: &[u8]) -> Option<u64>
    ensures { MatchOption result
        ((n : ℕ) → n < 2 ^ 62 → line.now ≢ count_text n)
        (λ n. (n < 2 ^ 62) × (line.now ≡ count_text n)) }
{
    let word = strip(line, b"lines ")?;
    match read_natural(word, MOST_STEPS) {
        Some(n) => Some(n as u64),
        None => None,
    }
}

impl Reading {
    pub fn new(alloc: Global) -> Reading
        ensures stage { result.stage ≡ Stage.Header }
        ensures steps { result.steps ≡ [] }
    {
        Reading {
            stage: Stage::Header,
            to_come: 0,
            steps: Lines::new(alloc),
            clause: Vec::new(alloc),
            hints: Vec::new(alloc),
        }
    }

    fn take_header(&mut self, line: &[u8]) -> Result<(), LineError>
        requires stage { self.old.stage ≡ Stage.Header }
        requires kept { Kept self.old }
        ensures ok { OnOk result (Goes self.old line.now self.new) }
        ensures kept { OnOk result (Kept self.new) }
        ensures bad { IsErrOf result LineError.Bad → Stops self.old line.now }
    {
        if line != b"2ls derivation 1".as_slice() {
            return Err(LineError::Bad);
        }
        self.stage = Stage::Count;
        Ok(())
    }

    fn take_count(&mut self, line: &[u8]) -> Result<(), LineError>
        requires stage { self.old.stage ≡ Stage.Count }
        requires kept { Kept self.old }
        ensures ok { OnOk result (Goes self.old line.now self.new) }
        ensures kept { OnOk result (Kept self.new) }
        ensures bad { IsErrOf result LineError.Bad → Stops self.old line.now }
    {
        let Some(count) = count_of(line) else {
            return Err(LineError::Bad);
        };
        self.to_come = count;
        self.stage = Stage::Steps;
        Ok(())
    }

    /// Takes the line behind the last step.
    fn take_end(&mut self, line: &[u8]) -> Result<(), LineError>
        requires stage { self.old.stage ≡ Stage.Steps }
        requires kept { Kept self.old }
        requires none { self.old.to_come ≡ 0 }
        ensures ok { OnOk result (Goes self.old line.now self.new) }
        ensures kept { OnOk result (Kept self.new) }
        ensures bad { IsErrOf result LineError.Bad → Stops self.old line.now }
    {
        if line != b"end".as_slice() {
            return Err(LineError::Bad);
        }
        self.stage = Stage::Over;
        Ok(())
    }

    fn take_step(&mut self, line: &[u8]) -> Result<(), LineError>
        requires stage { self.old.stage ≡ Stage.Steps }
        requires kept { Kept self.old }
        requires some { 1 ≤ self.old.to_come }
        ensures ok { OnOk result (Goes self.old line.now self.new) }
        ensures kept { OnOk result (Kept self.new) }
        ensures bad { IsErrOf result LineError.Bad → Stops self.old line.now }
    {
        let number = match read_step(Words::new(line), &mut self.clause, &mut self.hints) {
            Ok(number) => number,
            Err(error) => return Err(error),
        };
        if self
            .steps
            .push(number, self.clause.as_slice(), self.hints.as_slice())
            .is_err()
        {
            return Err(LineError::NoMemory);
        }
        self.to_come -= 1;
        Ok(())
    }

    /// Takes the next line, given without its LF.
    pub fn take(&mut self, line: &[u8]) -> Result<(), LineError>
        requires { Kept self.old }
        ensures ok { OnOk result (Goes self.old line.now self.new) }
        ensures kept { OnOk result (Kept self.new) }
        ensures bad { IsErrOf result LineError.Bad → Stops self.old line.now }
    {
        match self.stage {
            Stage::Header => self.take_header(line),
            Stage::Count => self.take_count(line),
            Stage::Steps if self.to_come == 0 => self.take_end(line),
            Stage::Steps => self.take_step(line),
            Stage::Over => Err(LineError::Bad),
        }
    }

    /// Whether all of a file was read.
    pub fn is_whole(&self) -> bool
        requires { Kept self.now }
        ensures { MatchBool result
            ((steps : List Step) → Completes self.now [] steps ↔ (steps ≡ self.now.steps))
            ((steps : List Step) → ¬ Completes self.now [] steps) }
    {
        match self.stage {
            Stage::Over => true,
            _ => false,
        }
    }

    pub fn into_steps(self) -> Lines
        ensures { result ≡ self.steps }
    {
        let Reading { steps, .. } = self;
        steps
    }
}
