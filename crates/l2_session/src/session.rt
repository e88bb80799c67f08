ghost use Rattle.std.specs.Prelude.{◌≡◌, ◌++◌, ◌≤◌, ◌<◌, ◌^◌, [], ℕ, ℤ, Bool, List, length, take, IfOk, OnOk, OnErr, slice_index_or};
ghost use Rattle.l2_cnf.specs.Logic.{Satisfies, Settles};
ghost use Rattle.l2_cdcl.specs.Learning.{IsLearning};
ghost use Rattle.l2_cdcl.specs.Answering.{IsAnswer, IsClosed, truth_of};
ghost use Rattle.l2_session.specs.Talks.{IsKnown, IsUnsat, one_more};

use l2_cdcl::{Answer, Solver};
use l2_cnf::{Assignment, ClauseList, Lit};
use std::alloc::{AllocError, Global};
use std::marker::Model;

/// A list of clauses that only grows, and questions about it to one solver, which keeps what it learns.
#[derive(Drop)]
pub struct Session {
    solver: Solver,
    asked: u64,
}

impl Model for Session {
    ghost use Rattle.std.specs.Prelude.{◌≡◌, ◌<◌, ◌^◌, false};
    ghost use Rattle.l2_session.specs.Talks.{Talk};

    ghost Value = { Talk };

    ghost view = { λ a. record { list = a.solver.added; learnt = a.solver.learnt; asked = a.asked } };

    ghost invariant = { λ a. a.solver.logged ≡ false };
}

impl Session {
    /// A session with no clause, which has taken no memory.
    pub fn new(alloc: Global) -> Session
        ensures list { result.list ≡ [] }
        ensures learnt { result.learnt ≡ [] }
        ensures asked { result.asked ≡ 0 }
    {
        Session {
            solver: Solver::new(alloc),
            asked: 0,
        }
    }

    /// Appends clauses. For want of memory it may have appended the first of them alone.
    pub fn extend(&mut self, clauses: &ClauseList) -> Result<(), AllocError>
        ensures ok { OnOk result (self.new.list ≡ self.old.list ++ clauses.now) }
        ensures err { OnErr result ((n : ℕ) × (n ≤ length clauses.now) × (self.new.list ≡ self.old.list ++ take n clauses.now)) }
        ensures learnt { self.new.learnt ≡ self.old.learnt }
        ensures asked { self.new.asked ≡ self.old.asked }
    {
        self.solver.add_list(clauses)
    }

    /// Answers whether the clauses have a model under these assumptions. It gives up for want of memory alone, and then keeps
    /// what it learnt. What was answered Unsat is settled from then on, so it is answered so again.
    pub fn ask(&mut self, assumptions: &[Lit]) -> Result<Answer, AllocError>
        ensures list { self.new.list ≡ self.old.list }
        ensures asked { self.new.asked ≡ one_more self.old.asked }
        ensures learning { IsLearning assumptions.now self.old.list self.old.learnt self.new.learnt }
        ensures implied { (v : ℕ → Bool) → Satisfies v self.old.list → Satisfies v self.new.learnt }
        ensures answer { IfOk result (λ a. IsAnswer assumptions.now self.old.list self.old.learnt self.new.learnt a) }
        ensures closed { IfOk result (λ a. IsClosed assumptions.now self.new.learnt a) }
        ensures settled { IfOk result (λ a. IsUnsat a → Settles (self.new.list ++ self.new.learnt) assumptions.now) }
        ensures known { IfOk result (λ a. Settles (self.old.list ++ self.old.learnt) assumptions.now → IsKnown self.old.learnt self.new.learnt a) }
    {
        self.asked = self.asked.saturating_add(1);
        self.solver.solve(assumptions)
    }

    /// How many questions were asked, or `u64::MAX` where they were more.
    pub fn asked(&self) -> u64
        ensures { result ≡ self.now.asked }
    {
        self.asked
    }

    /// The truth of a literal, if its variable has a value.
    pub fn value(&self, a: &Assignment, l: Lit) -> Option<bool>
        ensures { result ≡ truth_of a.now l }
    {
        self.solver.value(a, l)
    }

    /// The number of clauses.
    pub fn len(&self) -> u64
        ensures len { result ≡ length self.now.list }
        ensures small { result < 2 ^ 60 }
    {
        self.solver.added_len()
    }

    /// The number of clauses learnt.
    pub fn learnt_len(&self) -> u64
        ensures len { result ≡ length self.now.learnt }
        ensures small { result < 2 ^ 60 }
    {
        self.solver.learnt_len()
    }

    /// A clause that was learnt.
    pub fn learnt(&self, i: u64) -> &[Lit]
        requires { i < length self.now.learnt }
        ensures { result.now ≡ slice_index_or self.now.learnt i [] }
    {
        self.solver.learnt(i)
    }
}
