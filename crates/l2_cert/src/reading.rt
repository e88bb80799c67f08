ghost use Rattle.std.specs.Prelude.{◌≡◌, OnOk, IsErrOf};
ghost use Rattle.l2_cert.specs.Cursor.{left};
ghost use Rattle.l2_cert.specs.Kept.{Kept};
ghost use Rattle.l2_cert.specs.Machine.{State, Goes, Takes, loops_left, AtFirst, AtKind, AtChecks, AtCopies, AtLoops, nothing, at};
ghost use Rattle.l2_cert.specs.Reading.{cert_of, state_of};

use crate::cert::CertKind;
use crate::lines::{checks_of, is_first, kind_of, numbered};
use crate::steps::LineError;
use crate::words::Words;
use l2_cnf::{Lines, Lit};
use l2_templates::{Form, Point, Ranks, RowList};
use std::alloc::Global;

/// What the next line is to be.
#[derive(Clone, Copy, Debug, PartialEq, Eq)]
pub enum Stage {
    First,
    Kind,
    Checks,
    Copies,
    Loops,
    Loop,
    Row,
    Ranks,
    Rank,
    Goals,
    Goal,
    Step,
    End,
    /// None.
    Over,
}

/// A certificate that is being read.
#[derive(Drop)]
pub struct Reading {
    pub stage: Stage,
    /// How many loops or goals are still to come.
    pub left: u32,
    /// How many rows, components or steps of the present one are still to come.
    pub more: u64,
    pub kind: CertKind,
    pub overflow: bool,
    pub k: u32,
    pub point: Point,
    pub ranks: Ranks,
    pub goals: Vec<Lines>,
    /// Of the loop that is being read.
    pub rows: RowList,
    /// Of the ranking that is being read.
    pub forms: Vec<Form>,
    /// Of the goal that is being read.
    pub steps: Lines,
    /// Room for a step's parts.
    pub clause: Vec<Lit>,
    pub hints: Vec<u64>,
}

impl Reading {
    pub fn new(alloc: Global) -> Reading
        ensures { state_of result ≡ at AtFirst nothing }
    {
        Reading {
            stage: Stage::First,
            left: 0,
            more: 0,
            kind: CertKind::Safe,
            overflow: false,
            k: 0,
            point: Point::new(alloc),
            ranks: Ranks::new(alloc),
            goals: Vec::new(alloc),
            rows: RowList::new(alloc),
            forms: Vec::new(alloc),
            steps: Lines::new(alloc),
            clause: Vec::new(alloc),
            hints: Vec::new(alloc),
        }
    }

    pub fn take_first(&mut self, words: Words<'_>) -> Result<(), LineError>
        ensures ok { OnOk result (Takes AtFirst (cert_of self.old) (left words.entry) (state_of self.new)) }
        ensures bad { IsErrOf result LineError.Bad → (t : State) → ¬ Takes AtFirst (cert_of self.old) (left words.entry) t }
    {
        if !is_first(words) {
            return Err(LineError::Bad);
        }
        self.stage = Stage::Kind;
        Ok(())
    }

    pub fn take_kind(&mut self, words: Words<'_>) -> Result<(), LineError>
        ensures ok { OnOk result (Takes AtKind (cert_of self.old) (left words.entry) (state_of self.new)) }
        ensures bad { IsErrOf result LineError.Bad → (t : State) → ¬ Takes AtKind (cert_of self.old) (left words.entry) t }
    {
        let Some(kind) = kind_of(words) else {
            return Err(LineError::Bad);
        };
        self.kind = kind;
        self.stage = Stage::Checks;
        Ok(())
    }

    pub fn take_checks(&mut self, words: Words<'_>) -> Result<(), LineError>
        ensures ok { OnOk result (Takes AtChecks (cert_of self.old) (left words.entry) (state_of self.new)) }
        ensures bad { IsErrOf result LineError.Bad → (t : State) → ¬ Takes AtChecks (cert_of self.old) (left words.entry) t }
    {
        let Some(overflow) = checks_of(words) else {
            return Err(LineError::Bad);
        };
        self.overflow = overflow;
        self.stage = Stage::Copies;
        Ok(())
    }

    pub fn take_copies(&mut self, words: Words<'_>) -> Result<(), LineError>
        ensures ok { OnOk result (Takes AtCopies (cert_of self.old) (left words.entry) (state_of self.new)) }
        ensures bad { IsErrOf result LineError.Bad → (t : State) → ¬ Takes AtCopies (cert_of self.old) (left words.entry) t }
    {
        let Some(k) = numbered(words, b"k", 1, 64) else {
            return Err(LineError::Bad);
        };
        self.k = k as u32;
        self.stage = Stage::Loops;
        Ok(())
    }

    pub fn take_loops(&mut self, words: Words<'_>) -> Result<(), LineError>
        ensures ok { OnOk result (Takes AtLoops (cert_of self.old) (left words.entry) (state_of self.new)) }
        ensures bad { IsErrOf result LineError.Bad → (t : State) → ¬ Takes AtLoops (cert_of self.old) (left words.entry) t }
    {
        let Some(loops) = numbered(words, b"loops", 0, u64::from(u32::MAX)) else {
            return Err(LineError::Bad);
        };
        self.left = loops as u32;
        self.go_to_loops();
        Ok(())
    }

    /// To the next loop, or to the goals where none is left.
    pub(crate) fn go_to_loops(&mut self)
        ensures { state_of self.new ≡ at (loops_left self.old.left) (cert_of self.old) }
    {
        self.stage = if self.left == 0 {
            Stage::Goals
        } else {
            Stage::Loop
        };
    }
}
