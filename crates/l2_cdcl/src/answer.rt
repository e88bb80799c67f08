ghost use Rattle.std.specs.Prelude.{◌≡◌, ℤ, List, IfOk};

use l2_cnf::{Assignment, Lit};
use std::alloc::{AllocError, Global};
use std::marker::Model;

/// What a question was answered.
#[derive(Drop)]
pub enum Answer {
    /// Values that make all clauses and assumptions true.
    Sat(Assignment),
    /// Assumptions that can't be met together.
    Unsat(Core),
}

/// Some of the assumptions under which the clauses have no model.
#[derive(Drop)]
pub struct Core {
    literals: Vec<Lit>,
}

impl Model for Core {
    ghost use Rattle.std.specs.Prelude.{ℤ, List};

    ghost Value = { List ℤ };

    ghost view = { λ a. a.literals.items };
}

impl Core {
    pub(crate) fn new(alloc: Global, literals: &[Lit]) -> Result<Core, AllocError>
        ensures { IfOk result (λ c. c ≡ literals.now) }
    {
        let literals = Vec::from_slice(alloc, literals)?;
        Ok(Core { literals })
    }

    pub fn literals(&self) -> &[Lit]
        ensures { result.now ≡ self.now }
    {
        self.literals.as_slice()
    }
}
