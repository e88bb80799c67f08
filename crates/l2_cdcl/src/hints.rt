ghost use Rattle.std.specs.Prelude.{◌≡◌, ◌++◌, ◌∷◌, [], true, reverse, OnOk};

use std::alloc::{AllocError, Global};
use std::marker::Model;

/// The numbers of the clauses by which a clause follows, last first, if they are kept at all. If they aren't, it takes no
/// memory.
#[derive(Drop)]
pub struct Hints {
    kept: bool,
    numbers: Vec<u64>,
}

impl Model for Hints {
    ghost use Rattle.l2_cdcl.specs.Log.{Noted};

    ghost Value = { Noted };

    ghost view = { λ a. record { kept = a.kept; numbers = a.numbers.items } };
}

impl Hints {
    pub fn new(alloc: Global, kept: bool) -> Hints
        ensures kept { result.kept ≡ kept }
        ensures numbers { result.numbers ≡ [] }
    {
        Hints {
            kept,
            numbers: Vec::new(alloc),
        }
    }

    /// Takes in a clause that comes before the others.
    pub fn note(&mut self, number: u64) -> Result<(), AllocError>
        ensures kept { self.new.kept ≡ self.old.kept }
        ensures ok { OnOk result (self.old.kept ≡ true → self.new.numbers ≡ self.old.numbers ++ number ∷ []) }
    {
        if self.kept {
            self.numbers.push(number)?;
        }
        Ok(())
    }

    /// Turns them round, so that the first stands first.
    pub fn turn(&mut self)
        ensures { self.new.numbers ≡ reverse self.old.numbers }
    {
        self.numbers.reverse();
    }

    pub fn numbers(&self) -> &[u64]
        ensures { result.now ≡ self.now.numbers }
    {
        self.numbers.as_slice()
    }
}
