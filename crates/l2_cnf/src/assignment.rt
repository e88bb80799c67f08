ghost use Rattle.std.specs.Prelude.{◌≡◌, ◌≤◌, ◌-◌, ℤ, length, replicate, None, Some, IfOk, IsTrue, Contains, ◌↔◌, slice_set};
ghost use Rattle.std.specs.Bool.{OnTrue};
ghost use Rattle.l2_cnf.specs.Assignment.{value_of, MakesTrue, IsSatisfied, completed};
ghost use Rattle.l2_cnf.specs.Logic.{Satisfies};

use crate::{ClauseList, Lit};
use std::alloc::{AllocError, Global};
use std::marker::Model;

/// Values of the variables from 1 on; a variable may have none. Contracts see them in order.
#[derive(Drop)]
pub struct Assignment {
    values: Vec<Option<bool>>,
}

impl Model for Assignment {
    ghost use Rattle.std.specs.Prelude.{Bool, List, Option};

    ghost Value = { List (Option Bool) };

    ghost view = { λ a. a.values.items };
}

impl Assignment {
    /// Variables without a value.
    pub fn new(alloc: Global, variables: u64) -> Result<Assignment, AllocError>
        ensures { IfOk result (λ a. a ≡ replicate variables None) }
    {
        let values = vec![in alloc; None; variables as usize]?;
        Ok(Assignment { values })
    }

    /// Gives a variable a value.
    pub fn set(&mut self, var: u64, value: bool)
        requires low { 1 ≤ var }
        requires high { var ≤ length self.old }
        ensures { self.new ≡ slice_set self.old (var - 1) (Some value) }
    {
        self.values[var as usize - 1] = Some(value);
    }

    /// Takes a variable's value away.
    pub fn unset(&mut self, var: u64)
        requires low { 1 ≤ var }
        requires high { var ≤ length self.old }
        ensures { self.new ≡ slice_set self.old (var - 1) None }
    {
        self.values[var as usize - 1] = None;
    }

    /// How many variables there are.
    pub fn variables(&self) -> u64
        ensures { result ≡ length self.now }
    {
        self.values.len() as u64
    }

    /// The value of a variable; none beyond the variables.
    pub fn get(&self, var: u64) -> Option<bool>
        ensures { result ≡ value_of self.now var }
    {
        if var == 0 || var > self.values.len() as u64 {
            None
        } else {
            self.values[var as usize - 1]
        }
    }
}

impl Assignment {
    pub fn makes_true(&self, literal: Lit) -> bool
        ensures { IsTrue result ↔ MakesTrue self.now literal }
    {
        match self.get(literal.var()) {
            Some(value) => value == literal.is_positive(),
            None => false,
        }
    }
}

/// Whether each clause has a literal that the assignment makes true.
pub fn satisfies(a: &Assignment, list: &ClauseList) -> bool
    ensures exact { IsTrue result ↔ IsSatisfied a.now list.now }
    ensures model { OnTrue result (Satisfies (completed a.now) list.now) }
{
    for i in 0..list.len() {
        if !has_true(a, list.clause(i)) {
            return false;
        }
    }
    true
}

// Whether a clause has a literal that the assignment makes true.
fn has_true(a: &Assignment, clause: &[Lit]) -> bool
    ensures { IsTrue result ↔ ((l : ℤ) × (Contains clause.now l) × (MakesTrue a.now l)) }
{
    for literal in clause {
        if a.makes_true(*literal) {
            return true;
        }
    }
    false
}
