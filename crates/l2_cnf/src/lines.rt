ghost use Rattle.std.specs.Prelude.{◌≡◌, ◌<◌, ◌^◌, ◌-◌, ◌++◌, ◌∷◌, [], length, take, OnOk, OnErr};
ghost use Rattle.l2_cnf.specs.Lines.{step_at, step_of};

use crate::Lit;
use crate::runs::Runs;
use std::alloc::{AllocError, Global};
use std::marker::Model;

/// Steps of a derivation, each a number, a clause and hints. All literals lie in one run, and all hints in another:
/// 8 bytes a literal or hint, and 8 bytes a step for its number and for the end of each of its lists.
#[derive(Drop)]
pub struct Lines {
    numbers: Vec<u64>,
    clauses: Runs<Lit>,
    hints: Runs<u64>,
}

impl Model for Lines {
    ghost use Rattle.std.specs.Prelude.{◌≡◌, List, length};
    ghost use Rattle.l2_cnf.specs.Steps.{Step};
    ghost use Rattle.l2_cnf.specs.Lines.{steps_of};

    ghost Value = { List Step };

    ghost view = { λ a. steps_of a.numbers.items a.clauses a.hints };

    ghost invariant = { λ a. (length a.clauses ≡ length a.numbers.items)
        × (length a.hints ≡ length a.numbers.items) };
}

impl Lines {
    pub fn new(alloc: Global) -> Lines
        ensures { result ≡ [] }
    {
        Lines {
            numbers: Vec::new(alloc),
            clauses: Runs::new(alloc),
            hints: Runs::new(alloc),
        }
    }

    pub fn len(&self) -> u64
        ensures len { result ≡ length self.now }
        ensures small { result < 2 ^ 60 }
    {
        self.numbers.as_slice().len() as u64
    }

    pub fn push(&mut self, number: u64, clause: &[Lit], hints: &[u64]) -> Result<(), AllocError>
        ensures ok { OnOk result (self.new ≡ self.old ++ step_of number clause.now hints.now ∷ []) }
        ensures err { OnErr result (self.new ≡ self.old) }
    {
        self.clauses.push(clause)?;
        if let Err(error) = push_both(&mut self.numbers, &mut self.hints, number, hints) {
            self.clauses.pop();
            return Err(error);
        }
        Ok(())
    }

    /// Takes the last step out.
    pub fn pop(&mut self)
        requires { 0 < length self.old }
        ensures { self.new ≡ take (length self.old - 1) self.old }
    {
        self.numbers.pop();
        self.clauses.pop();
        self.hints.pop();
    }

    pub fn number(&self, i: u64) -> u64
        requires { i < length self.now }
        ensures { result ≡ (step_at self.now i).number }
    {
        self.numbers[i as usize]
    }

    pub fn clause(&self, i: u64) -> &[Lit]
        requires { i < length self.now }
        ensures { result.now ≡ (step_at self.now i).clause }
    {
        self.clauses.get(i)
    }

    pub fn hints(&self, i: u64) -> &[u64]
        requires { i < length self.now }
        ensures { result.now ≡ (step_at self.now i).hints }
    {
        self.hints.get(i)
    }
}

// Adds a number and its hints, or neither.
fn push_both(
    numbers: &mut Vec<u64>,
    lists: &mut Runs<u64>,
    number: u64,
    hints: &[u64],
) -> Result<(), AllocError>
    ensures ok { OnOk result ((numbers.new.items ≡ numbers.old.items ++ number ∷ [])
        × (lists.new ≡ lists.old ++ hints.now ∷ [])) }
    ensures err { OnErr result ((numbers.new.items ≡ numbers.old.items) × (lists.new ≡ lists.old)) }
{
    numbers.push(number)?;
    if let Err(error) = lists.push(hints) {
        numbers.pop();
        return Err(error);
    }
    Ok(())
}
