ghost use Rattle.std.specs.Prelude.{◌≡◌, ◌-◌, ◌++◌, ◌∷◌, [], true, length, take, OnOk, OnErr};
ghost use Rattle.l2_cnf.specs.Lines.{step_of};

use l2_cnf::{Lines, Lit};
use std::alloc::{AllocError, Global};
use std::marker::Model;

/// The steps by which clauses were learnt, if a log is kept at all. If it isn't, it takes no memory.
#[derive(Drop)]
pub struct Log {
    kept: bool,
    lines: Lines,
}

impl Model for Log {
    ghost use Rattle.l2_cdcl.specs.Log.{Logged};

    ghost Value = { Logged };

    ghost view = { λ a. record { kept = a.kept; steps = a.lines } };
}

impl Log {
    pub fn new(alloc: Global, kept: bool) -> Log
        ensures kept { result.kept ≡ kept }
        ensures steps { result.steps ≡ [] }
    {
        Log {
            kept,
            lines: Lines::new(alloc),
        }
    }

    pub fn is_kept(&self) -> bool
        ensures { result ≡ self.now.kept }
    {
        self.kept
    }

    pub fn lines(&self) -> &Lines
        ensures { result.now ≡ self.now.steps }
    {
        &self.lines
    }

    pub fn into_lines(self) -> Lines
        ensures { result ≡ self.steps }
    {
        self.lines
    }

    pub fn push(&mut self, number: u64, clause: &[Lit], hints: &[u64]) -> Result<(), AllocError>
        ensures kept { self.new.kept ≡ self.old.kept }
        ensures ok { OnOk result (self.old.kept ≡ true → self.new.steps ≡ self.old.steps ++ step_of number clause.now hints.now ∷ []) }
        ensures err { OnErr result (self.new ≡ self.old) }
    {
        if self.kept {
            self.lines.push(number, clause, hints)?;
        }
        Ok(())
    }

    /// Takes the last step out, if steps are kept.
    pub fn pop(&mut self)
        ensures kept { self.new.kept ≡ self.old.kept }
        ensures steps { self.old.kept ≡ true → self.new.steps ≡ take (length self.old.steps - 1) self.old.steps }
    {
        if self.kept && self.lines.len() > 0 {
            self.lines.pop();
        }
    }
}
