ghost use Rattle.std.specs.Prelude.{◌≡◌, ◌≤◌, ◌<◌, ◌^◌, ◌-◌, ◌++◌, ◌∷◌, [], length, IfOk, slice_index_or};

use l2_cnf::{Lit, part};
use std::alloc::{AllocError, Global};
use std::marker::Model;

/// Clauses in memory that was taken beforehand.
#[derive(Drop)]
pub struct Held {
    all: Vec<Lit>,
    ends: Vec<u64>,
    lines: u64,
    literals: u64,
}

impl Model for Held {
    ghost use Rattle.std.specs.Prelude.{◌≤◌, ◌+◌, ◌<◌, ◌^◌, length, vec_capacity};
    ghost use Rattle.l2_cnf.specs.Lists.{cut, AreEnds};
    ghost use Rattle.l2_rup.specs.Checked.{Hold};

    ghost Value = { Hold };

    ghost view = { λ a. record { clauses = cut 0 a.ends.items a.all.items; lines = a.lines; literals = a.literals } };

    ghost invariant = { λ a. (AreEnds 0 a.ends.items (length a.all.items))
        × (length a.ends.items + a.lines ≤ vec_capacity a.ends)
        × (length a.all.items + a.literals ≤ vec_capacity a.all) };
}

impl Held {
    pub fn new(alloc: Global, lines: u64, literals: u64) -> Result<Held, AllocError>
        ensures clauses { IfOk result (λ h. h.clauses ≡ []) }
        ensures lines { IfOk result (λ h. h.lines ≡ lines) }
        ensures literals { IfOk result (λ h. h.literals ≡ literals) }
    {
        Ok(Held {
            all: Vec::with_capacity(alloc, literals as usize)?,
            ends: Vec::with_capacity(alloc, lines as usize)?,
            lines,
            literals,
        })
    }

    pub fn len(&self) -> u64
        ensures len { result ≡ length self.now.clauses }
        ensures small { result < 2 ^ 60 }
    {
        self.ends.as_slice().len() as u64
    }

    pub fn clause(&self, i: u64) -> &[Lit]
        requires { i < length self.now.clauses }
        ensures { result.now ≡ slice_index_or self.now.clauses i [] }
    {
        part(&self.all, &self.ends, i)
    }

    pub fn push(&mut self, clause: &[Lit])
        requires lines { 1 ≤ self.old.lines }
        requires literals { length clause.now ≤ self.old.literals }
        ensures clauses { self.new.clauses ≡ self.old.clauses ++ clause.now ∷ [] }
        ensures lines { self.new.lines ≡ self.old.lines - 1 }
        ensures literals { self.new.literals ≡ self.old.literals - length clause.now }
    {
        match self.all.extend_from_slice(clause) {
            Ok(()) => {}
            Err(_) => unreachable!(),
        }
        match self.ends.push(self.all.len() as u64) {
            Ok(()) => {}
            Err(_) => unreachable!(),
        }
        self.lines -= 1;
        self.literals -= clause.len() as u64;
    }
}
