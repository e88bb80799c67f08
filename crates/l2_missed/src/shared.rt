ghost use Rattle.std.specs.Prelude.{◌≡◌, ◌↔◌, ◌++◌, ◌∷◌, ◌≤◌, ◌<◌, [], IfOk, IsTrue, MatchOption, length};
ghost use Rattle.l2_cnf.specs.Assignment.{IsSatisfied};
ghost use Rattle.l2_missed.specs.Meeting.{HasModel, IsMet, IsFirstMet, NoneMet, with_clause};

use l2_cdcl::Answer;
use l2_cnf::{Assignment, ClauseList, Lit};
use l2_session::Session;
use std::alloc::{AllocError, Global};
use std::marker::Model;

/// Clauses that are shared by questions, each of which asks whether they have a model that makes one more clause true. What one
/// question learns serves the next.
#[derive(Drop)]
pub struct Shared {
    session: Session,
}

impl Model for Shared {
    ghost use Rattle.std.specs.Prelude.{ℤ, List};

    ghost Value = { List (List ℤ) };

    ghost view = { λ a. a.session.list };
}

/// The index of a clause that is met, and values that make it and the shared clauses true.
#[derive(Drop)]
pub struct Met {
    pub index: u64,
    pub values: Assignment,
}

impl Shared {
    pub fn new(alloc: Global, clauses: &ClauseList) -> Result<Shared, AllocError>
        ensures { IfOk result (λ s. s ≡ clauses.now) }
    {
        let mut session = Session::new(alloc);
        session.extend(clauses)?;
        Ok(Shared { session })
    }

    /// Values that make this literal true, where there are some.
    fn model_of(&mut self, literal: Lit) -> Result<Option<Assignment>, AllocError>
        ensures same { self.new ≡ self.old }
        ensures is { IfOk result (λ r. MatchOption r (¬ HasModel (self.old ++ (literal ∷ []) ∷ [])) (λ a. IsSatisfied a (self.old ++ (literal ∷ []) ∷ []))) }
    {
        match self.session.ask(&[literal])? {
            Answer::Sat(values) => Ok(Some(values)),
            Answer::Unsat(_) => Ok(None),
        }
    }

    /// Values that make this clause true, where there are some.
    pub fn model_with(&mut self, clause: &[Lit]) -> Result<Option<Assignment>, AllocError>
        ensures same { self.new ≡ self.old }
        ensures is { IfOk result (λ r. MatchOption r (¬ HasModel (self.old ++ clause.now ∷ [])) (λ a. IsSatisfied a (self.old ++ clause.now ∷ []))) }
    {
        for literal in clause {
            match self.model_of(*literal)? {
                Some(values) => return Ok(Some(values)),
                None => {}
            }
        }
        Ok(None)
    }

    /// Whether some model makes this clause true.
    pub fn meets(&mut self, clause: &[Lit]) -> Result<bool, AllocError>
        ensures same { self.new ≡ self.old }
        ensures is { IfOk result (λ met. IsTrue met ↔ HasModel (self.old ++ clause.now ∷ [])) }
    {
        let values = self.model_with(clause)?;
        Ok(values.is_some())
    }

    /// The first of these clauses, from one index up to another, that some model makes true.
    pub fn first_met(
        &mut self,
        clauses: &ClauseList,
        from: u64,
        to: u64,
    ) -> Result<Option<Met>, AllocError>
        requires { to ≤ length clauses.now }
        ensures same { self.new ≡ self.old }
        ensures is { IfOk result (λ r. MatchOption r (NoneMet self.old clauses.now from to)
            (λ m. IsFirstMet self.old clauses.now from to m.index × IsSatisfied m.values (with_clause self.old clauses.now m.index))) }
    {
        let mut i = from;
        while i < to {
            match self.model_with(clauses.clause(i))? {
                Some(values) => return Ok(Some(Met { index: i, values })),
                None => {}
            }
            i += 1;
        }
        Ok(None)
    }
}
