ghost use Rattle.std.specs.Prelude.{◌≡◌, ◌++◌, ◌∷◌, ◌≤◌, ◌<◌, ◌^◌, [], ℕ, ℤ, Bool, true, false, Option, None, List, length, take, Contains, IfOk, OnOk, OnErr, slice_index_or};
ghost use Rattle.l2_cnf.specs.Logic.{Satisfies};
ghost use Rattle.l2_cnf.specs.Steps.{EndsEmpty};
ghost use Rattle.l2_cdcl.specs.Learning.{IsLearning, AreLearnt};
ghost use Rattle.l2_cdcl.specs.Answering.{IsAnswer, IsClosed, truth_of};
ghost use Rattle.l2_cdcl.specs.Log.{IsLog};
ghost use Rattle.l2_cdcl.specs.Held.{Held, IsHeld};

use crate::answer::Answer;
use crate::engine::Engine;
use crate::solve::answer;
use l2_cnf::{Assignment, ClauseList, Lines, Lit};
use std::alloc::{AllocError, Global};
use std::marker::Model;

/// A solver of clauses. Contracts see it as the clauses added and those learnt, in order. It keeps what it learnt. It may keep
/// a log as well, and then it takes no clause once it was asked.
#[derive(Drop)]
pub struct Solver {
    alloc: Global,
    logged: bool,
    asked: bool,
    engine: Option<Engine>,
    no_lines: Lines,
}

impl Model for Solver {
    ghost use Rattle.l2_cdcl.specs.Held.{Held, held_of, IsSolver};

    ghost Value = { Held };

    ghost view = { λ a. held_of a.logged a.asked a.engine a.no_lines };

    ghost invariant = { λ a. IsSolver a.logged a.asked a.engine a.no_lines };
}

impl Solver {
    /// A solver with no clause, which has taken no memory.
    pub fn new(alloc: Global) -> Solver
        ensures added { result.added ≡ [] }
        ensures learnt { result.learnt ≡ [] }
        ensures logged { result.logged ≡ false }
        ensures asked { result.asked ≡ false }
    {
        Solver::empty(alloc, false)
    }

    /// A solver with no clause that keeps a log. It has taken no memory.
    pub fn logged(alloc: Global) -> Solver
        ensures added { result.added ≡ [] }
        ensures learnt { result.learnt ≡ [] }
        ensures logged { result.logged ≡ true }
        ensures asked { result.asked ≡ false }
    {
        Solver::empty(alloc, true)
    }

    fn empty(alloc: Global, logged: bool) -> Solver
        ensures added { result.added ≡ [] }
        ensures learnt { result.learnt ≡ [] }
        ensures logged { result.logged ≡ logged }
        ensures asked { result.asked ≡ false }
    {
        Solver {
            alloc,
            logged,
            asked: false,
            engine: None,
            no_lines: Lines::new(alloc),
        }
    }

    // Takes the engine out, or makes one.
    fn take_engine(&mut self) -> Result<Engine, AllocError>
        ensures ok { IfOk result (λ e. (e.added ≡ self.old.added) × (e.learnt ≡ self.old.learnt) × (e.logged ≡ self.old.logged)) }
        ensures err { OnErr result (self.new ≡ self.old) }
        ensures logged { self.new.logged ≡ self.old.logged }
        ensures asked { self.new.asked ≡ self.old.asked }
        ensures held { IsHeld self.old }
    {
        match self.engine.take() {
            Some(engine) => Ok(engine),
            None => Ok(Engine::new(self.alloc, self.logged)?),
        }
    }

    /// Adds a clause. What was learnt stays.
    pub fn add(&mut self, clause: &[Lit]) -> Result<(), AllocError>
        requires { self.old.logged ≡ true → self.old.asked ≡ false }
        ensures ok { OnOk result (self.new.added ≡ self.old.added ++ clause.now ∷ []) }
        ensures err { OnErr result (self.new.added ≡ self.old.added) }
        ensures learnt { self.new.learnt ≡ self.old.learnt }
        ensures logged { self.new.logged ≡ self.old.logged }
        ensures asked { self.new.asked ≡ self.old.asked }
    {
        let mut engine = self.take_engine()?;
        let added = engine.add(clause);
        engine.facts();
        self.engine = Some(engine);
        added
    }

    /// Adds clauses, in order. What was learnt stays. For want of memory it may have added the first of them alone.
    pub fn add_list(&mut self, list: &ClauseList) -> Result<(), AllocError>
        requires { self.old.logged ≡ true → self.old.asked ≡ false }
        ensures ok { OnOk result (self.new.added ≡ self.old.added ++ list.now) }
        ensures err { OnErr result ((n : ℕ) × (n ≤ length list.now) × (self.new.added ≡ self.old.added ++ take n list.now)) }
        ensures learnt { self.new.learnt ≡ self.old.learnt }
        ensures logged { self.new.logged ≡ self.old.logged }
        ensures asked { self.new.asked ≡ self.old.asked }
    {
        let mut engine = self.take_engine()?;
        let added = engine.add_list(list);
        engine.facts();
        self.engine = Some(engine);
        added
    }

    /// Answers whether the clauses have a model under these assumptions. It gives up for want of memory alone, and then keeps
    /// what it learnt. Where it answers Unsat without assumptions, what it learnt ends with the empty clause.
    pub fn solve(&mut self, assumptions: &[Lit]) -> Result<Answer, AllocError>
        ensures added { self.new.added ≡ self.old.added }
        ensures logged { self.new.logged ≡ self.old.logged }
        ensures asked { self.new.asked ≡ true }
        ensures learning { IsLearning assumptions.now self.old.added self.old.learnt self.new.learnt }
        ensures implied { (v : ℕ → Bool) → Satisfies v self.old.added → Satisfies v self.new.learnt }
        ensures answer { IfOk result (λ a. IsAnswer assumptions.now self.old.added self.old.learnt self.new.learnt a) }
        ensures closed { IfOk result (λ a. IsClosed assumptions.now self.new.learnt a) }
        ensures ends { Contains self.new.learnt [] → EndsEmpty self.new.learnt }
    {
        self.asked = true;
        let mut engine = self.take_engine()?;
        let answered = answer(&mut engine, assumptions);
        engine.facts();
        self.engine = Some(engine);
        answered
    }

    /// The log of what was learnt: its steps derive the clauses learnt, in order, from those added. Each wasn't absorbed
    /// by the clauses before it, but for an empty clause, which is the last.
    pub fn log(&self) -> &Lines
        requires { self.now.logged ≡ true }
        ensures steps { result.now ≡ self.now.log }
        ensures log { IsLog self.now.added self.now.learnt self.now.log }
        ensures all { AreLearnt self.now.added [] self.now.learnt }
        ensures ends { Contains self.now.learnt [] → EndsEmpty self.now.learnt }
    {
        match &self.engine {
            Some(engine) => {
                engine.facts();
                engine.log()
            }
            None => &self.no_lines,
        }
    }

    /// The log, as `log` has it, of a solver that is no longer needed.
    pub fn into_log(self) -> Lines
        requires { self.logged ≡ true }
        ensures steps { result ≡ self.log }
        ensures log { IsLog self.added self.learnt self.log }
        ensures all { AreLearnt self.added [] self.learnt }
        ensures ends { Contains self.learnt [] → EndsEmpty self.learnt }
    {
        let Solver {
            engine,
            no_lines,
            ..
        } = self;
        match engine {
            Some(engine) => {
                engine.facts();
                engine.into_log()
            }
            None => no_lines,
        }
    }

    /// The truth of a literal, if its variable has a value.
    pub fn value(&self, a: &Assignment, l: Lit) -> Option<bool>
        ensures { result ≡ truth_of a.now l }
    {
        let value = a.get(l.var())?;
        Some(if l.is_positive() { value } else { !value })
    }

    /// The number of clauses added.
    pub fn added_len(&self) -> u64
        ensures len { result ≡ length self.now.added }
        ensures small { result < 2 ^ 60 }
    {
        match &self.engine {
            Some(engine) => engine.added_len(),
            None => 0,
        }
    }

    /// The number of clauses learnt.
    pub fn learnt_len(&self) -> u64
        ensures len { result ≡ length self.now.learnt }
        ensures small { result < 2 ^ 60 }
    {
        match &self.engine {
            Some(engine) => engine.learnt_len(),
            None => 0,
        }
    }

    /// A clause that was learnt.
    pub fn learnt(&self, i: u64) -> &[Lit]
        requires { i < length self.now.learnt }
        ensures { result.now ≡ slice_index_or self.now.learnt i [] }
    {
        match &self.engine {
            Some(engine) => engine.learnt(i),
            None => unreachable!(),
        }
    }
}
