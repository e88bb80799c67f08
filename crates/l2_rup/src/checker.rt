ghost use Rattle.std.specs.Prelude.{◌≡◌, ◌≤◌, ◌∷◌, [], ℕ, Bool, length, IfOk, OnOk, OnErr, IsTrue, ◌↔◌};
ghost use Rattle.std.specs.Bool.{OnTrue};
ghost use Rattle.l2_cnf.specs.Logic.{IsWithin, AllWithin, Satisfies, HasTrue};
ghost use Rattle.l2_cnf.specs.Steps.{IsStep, EndsEmpty};
ghost use Rattle.l2_rup.specs.Checked.{fresh, formula_of, known_of, with_step};

use crate::hints::{follow, negate};
use crate::known::Known;
use l2_cnf::{ClauseList, Lit, Trail};
use std::alloc::{AllocError, Global};
use std::marker::Model;
use thiserror::Error;

/// The step rule doesn't accept a step.
#[derive(Clone, Copy, Debug, Drop, Error, PartialEq, Eq)]
pub enum StepError {
    #[error("the step isn't accepted")]
    BadStep,
}

/// Checks steps one by one over a formula. It takes memory only when it is made or begun anew.
#[derive(Drop)]
pub struct Checker<'a> {
    known: Known<'a>,
    trail: Trail,
}

impl<'a> Model for Checker<'a> {
    ghost use Rattle.std.specs.Prelude.{◌≡◌, []};
    ghost use Rattle.l2_rup.specs.Checked.{Checked};

    ghost Value = { Checked };

    ghost view = { λ a. a.known };

    ghost invariant = { λ a. (a.trail.literals ≡ []) × (a.trail.variables ≡ a.known.variables) };
}

impl<'a> Checker<'a> {
    /// A checker of the steps of a formula: the clauses of `base` and one last clause. There is room for `lines` steps
    /// with `literals` literals in all.
    pub fn new(
        alloc: Global,
        base: &'a ClauseList,
        last: &[Lit],
        variables: u64,
        lines: u64,
        literals: u64,
    ) -> Result<Checker<'a>, AllocError>
        requires base { AllWithin variables base.now }
        requires last { IsWithin variables last.now }
        ensures { IfOk result (λ c. c ≡ fresh base.now (last.now ∷ []) variables lines literals) }
    {
        let mut closing = ClauseList::new(alloc);
        closing.push(last)?;
        Checker::over(alloc, base, closing, variables, lines, literals)
    }

    /// A checker as `new` makes it, of the clauses of `base` alone.
    pub fn without_last(
        alloc: Global,
        base: &'a ClauseList,
        variables: u64,
        lines: u64,
        literals: u64,
    ) -> Result<Checker<'a>, AllocError>
        requires { AllWithin variables base.now }
        ensures { IfOk result (λ c. c ≡ fresh base.now [] variables lines literals) }
    {
        Checker::over(
            alloc,
            base,
            ClauseList::new(alloc),
            variables,
            lines,
            literals,
        )
    }

    fn over(
        alloc: Global,
        base: &'a ClauseList,
        last: ClauseList,
        variables: u64,
        lines: u64,
        literals: u64,
    ) -> Result<Checker<'a>, AllocError>
        requires base { AllWithin variables base.now }
        requires last { AllWithin variables last }
        ensures { IfOk result (λ c. c ≡ fresh base.now last variables lines literals) }
    {
        let known = Known::new(alloc, base, last, variables, lines, literals)?;
        let trail = Trail::new(alloc, variables)?;
        Ok(Checker { known, trail })
    }

    /// Begins anew over the same base, with another last clause.
    pub fn restart(&mut self, last: &[Lit], lines: u64, literals: u64) -> Result<(), AllocError>
        requires { IsWithin self.old.variables last.now }
        ensures ok { OnOk result (self.new ≡ fresh self.old.base (last.now ∷ []) self.old.variables lines literals) }
        ensures err { OnErr result (self.new ≡ self.old) }
    {
        self.known.restart(last, lines, literals)
    }

    /// Accepts a step exactly by the step rule: it has the next number, and its literals have distinct variables of the
    /// formula. From their negations, each hint but the last names a clause that makes one more literal true, and the
    /// last hint names a clause whose literals are all false. The cost is that of these clauses alone.
    pub fn step(&mut self, number: u64, clause: &[Lit], hints: &[u64]) -> Result<(), StepError>
        requires lines { 1 ≤ self.old.lines }
        requires literals { length clause.now ≤ self.old.literals }
        ensures ok { OnOk result (IsStep (known_of self.old) self.old.variables number clause.now hints.now) }
        ensures bad { OnErr result (¬ IsStep (known_of self.old) self.old.variables number clause.now hints.now) }
        ensures implied { OnOk result ((v : ℕ → Bool) → Satisfies v (formula_of self.old) → HasTrue v clause.now) }
        ensures taken { OnOk result (self.new ≡ with_step self.old clause.now) }
        ensures same { OnErr result (self.new ≡ self.old) }
    {
        let accepted = is_step(&self.known, &mut self.trail, number, clause, hints);
        self.trail.clear();
        if accepted {
            self.known.push(clause);
            Ok(())
        } else {
            Err(StepError::BadStep)
        }
    }

    /// Whether the last accepted step is the empty clause. Then the formula has no model.
    pub fn closed(&self) -> bool
        ensures exact { IsTrue result ↔ EndsEmpty self.now.steps }
        ensures refuted { OnTrue result ((v : ℕ → Bool) → ¬ Satisfies v (formula_of self.now)) }
    {
        self.known.ends_empty()
    }
}

// Whether the step rule accepts a step.
fn is_step(known: &Known<'_>, trail: &mut Trail, number: u64, clause: &[Lit], hints: &[u64]) -> bool
    requires empty { trail.old.literals ≡ [] }
    requires variables { trail.old.variables ≡ known.now.variables }
    ensures variables { trail.new.variables ≡ trail.old.variables }
    ensures exact { IsTrue result ↔ IsStep (known_of known.now) trail.old.variables number clause.now hints.now }
{
    if number != known.len() + 1 {
        return false;
    }
    if !negate(trail, clause) {
        return false;
    }
    follow(known, trail, hints)
}
