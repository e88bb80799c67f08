ghost use Rattle.std.specs.Prelude.{◌≡◌, ◌≤◌, ◌<◌, ◌^◌, ℕ, OnOk, IsErrOf, length};
ghost use Rattle.l2_cert.specs.Cursor.{left};
ghost use Rattle.l2_cert.specs.Certificate.{RanksMay};
ghost use Rattle.l2_cert.specs.Machine.{State, Takes, AtLoop, AtRow, AtRanks, AtRank, forms_left, last_loop, rows_left, with_loop};
ghost use Rattle.l2_cert.specs.Reading.{cert_of, state_of};

use crate::cert::CertKind;
use crate::forms::{component_of, row_of};
use crate::lines::{LoopLine, loop_of, ranks_of};
use crate::reading::{Reading, Stage};
use crate::steps::LineError;
use crate::words::Words;
use l2_templates::{LoopPoint, Point, RowList};
use std::alloc::Global;
use std::mem;

/// The most components of a ranking at the last of these loops.
fn most_components(point: &Point) -> u64
    ensures { (n : ℕ) → (n ≤ result → (n < 2 ^ 32) × RanksMay (last_loop point.now) n) × (n < 2 ^ 32 → RanksMay (last_loop point.now) n → n ≤ result) }
{
    let loops = point.len();
    if loops == 0 {
        return 0;
    }
    match point.get(loops - 1) {
        LoopPoint::Bottom => 0,
        LoopPoint::Rows(_) => u64::from(u32::MAX),
    }
}

impl Reading {
    /// Puts a loop behind those that were read.
    fn add_loop(&mut self, at: LoopPoint) -> Result<(), LineError>
        ensures ok { OnOk result (state_of self.new ≡ with_loop self.old.left (cert_of self.old) at) }
        ensures memory { IsErrOf result LineError.Bad → ⊥ }
    {
        if self.point.push(at).is_err() {
            return Err(LineError::NoMemory);
        }
        match self.kind {
            CertKind::Safe => self.go_to_loops(),
            CertKind::Terminating => self.stage = Stage::Ranks,
        }
        Ok(())
    }

    /// Goes on behind a row, to the next one or to what stands behind the loop.
    fn go_to_rows(&mut self, alloc: Global) -> Result<(), LineError>
        ensures ok { OnOk result (state_of self.new ≡ rows_left self.old.left (cert_of self.old) self.old.more self.old.rows) }
        ensures memory { IsErrOf result LineError.Bad → ⊥ }
    {
        if self.more > 0 {
            self.stage = Stage::Row;
            return Ok(());
        }
        let rows = mem::replace(&mut self.rows, RowList::new(alloc));
        self.add_loop(LoopPoint::Rows(rows))
    }

    /// Takes the first line of a loop.
    pub fn take_loop(&mut self, alloc: Global, words: Words<'_>) -> Result<(), LineError>
        requires some { 1 ≤ self.old.left }
        requires few { length self.old.point < 2 ^ 32 }
        ensures ok { OnOk result (Takes (AtLoop self.old.left) (cert_of self.old) (left words.entry) (state_of self.new)) }
        ensures bad { IsErrOf result LineError.Bad → (t : State) → ¬ Takes (AtLoop self.old.left) (cert_of self.old) (left words.entry) t }
    {
        let Some(line) = loop_of(words, self.point.len() as u64 + 1) else {
            return Err(LineError::Bad);
        };
        self.left -= 1;
        match line {
            LoopLine::Bottom => self.add_loop(LoopPoint::Bottom),
            LoopLine::Rows(rows) => {
                self.rows = RowList::new(alloc);
                self.more = u64::from(rows);
                self.go_to_rows(alloc)
            }
        }
    }

    /// Takes a row.
    pub fn take_row(&mut self, alloc: Global, words: Words<'_>) -> Result<(), LineError>
        requires { 1 ≤ self.old.more }
        ensures ok { OnOk result (Takes (AtRow self.old.left self.old.more self.old.rows) (cert_of self.old) (left words.entry) (state_of self.new)) }
        ensures bad { IsErrOf result LineError.Bad → (t : State) → ¬ Takes (AtRow self.old.left self.old.more self.old.rows) (cert_of self.old) (left words.entry) t }
    {
        let Some(row) = row_of(words) else {
            return Err(LineError::Bad);
        };
        if self.rows.push(row.form, row.bound).is_err() {
            return Err(LineError::NoMemory);
        }
        self.more -= 1;
        self.go_to_rows(alloc)
    }

    /// Goes on behind a component, to the next one or to the next loop.
    fn go_to_components(&mut self, alloc: Global) -> Result<(), LineError>
        ensures ok { OnOk result (state_of self.new ≡ forms_left self.old.left (cert_of self.old) self.old.more self.old.forms.items) }
        ensures memory { IsErrOf result LineError.Bad → ⊥ }
    {
        if self.more > 0 {
            self.stage = Stage::Rank;
            return Ok(());
        }
        let forms = mem::replace(&mut self.forms, Vec::new(alloc));
        if self.ranks.push(forms).is_err() {
            return Err(LineError::NoMemory);
        }
        self.go_to_loops();
        Ok(())
    }

    /// Takes the first line of a ranking.
    pub fn take_ranks(&mut self, alloc: Global, words: Words<'_>) -> Result<(), LineError>
        ensures ok { OnOk result (Takes (AtRanks self.old.left) (cert_of self.old) (left words.entry) (state_of self.new)) }
        ensures bad { IsErrOf result LineError.Bad → (t : State) → ¬ Takes (AtRanks self.old.left) (cert_of self.old) (left words.entry) t }
    {
        let most = most_components(&self.point);
        let Some(components) = ranks_of(words, self.point.len() as u64, most) else {
            return Err(LineError::Bad);
        };
        self.forms = Vec::new(alloc);
        self.more = components;
        self.go_to_components(alloc)
    }

    /// Takes a component.
    pub fn take_component(&mut self, alloc: Global, words: Words<'_>) -> Result<(), LineError>
        requires { 1 ≤ self.old.more }
        ensures ok { OnOk result (Takes (AtRank self.old.left self.old.more self.old.forms.items) (cert_of self.old) (left words.entry) (state_of self.new)) }
        ensures bad { IsErrOf result LineError.Bad → (t : State) → ¬ Takes (AtRank self.old.left self.old.more self.old.forms.items) (cert_of self.old) (left words.entry) t }
    {
        let Some(form) = component_of(words) else {
            return Err(LineError::Bad);
        };
        if self.forms.push(form).is_err() {
            return Err(LineError::NoMemory);
        }
        self.more -= 1;
        self.go_to_components(alloc)
    }
}
