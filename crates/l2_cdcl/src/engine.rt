ghost use Rattle.std.specs.Prelude.{◌≡◌, ◌≢◌, ◌⊎◌, ◌≤◌, ◌<◌, ◌^◌, ◌+◌, ◌-◌, ◌++◌, ◌∷◌, [], ℕ, ℤ, pos, neg_ℤ, nat_abs, Bool, true, false, List, length, take, Contains, slice_index_or, OnOk, OnErr, IfOk, IsTrue, ◌↔◌, Ok, Some, None, MatchOption};
ghost use Rattle.l2_cnf.specs.Logic.{Settles, Follows};
ghost use Rattle.l2_cnf.specs.Steps.{IsStep};
ghost use Rattle.l2_cnf.specs.Lines.{step_of};
ghost use Rattle.l2_cnf.specs.Trail.{AreOver};
ghost use Rattle.l2_cnf.specs.Assignment.{MakesTrue};
ghost use Rattle.l2_watch.specs.Visit.{AreFalse};
ghost use Rattle.l2_watch.specs.Board.{IsLearnt, start_of};
ghost use Rattle.l2_cdcl.specs.Learning.{MayBeLearnt};
ghost use Rattle.l2_cdcl.specs.Level.{IsRootConflict};
ghost use Rattle.l2_cdcl.specs.Log.{greatest_of};
ghost use Rattle.l2_cdcl.specs.Search.{Search, AreAssumed, IsTurn, IsReady};
ghost use Rattle.l2_cdcl.specs.Searched.{IsSearch, IsSearched, IsVerdict};

use crate::analysis::{Aside, Bounds};
use crate::answer::Core;
use crate::hints::Hints;
use crate::log::Log;
use crate::marks::Marks;
use crate::model::assignment_of;
use crate::redundant::Notes;
use crate::root::root_hints;
use crate::shorten::trace;
use crate::target::{Target, aim};
use l2_cnf::{Assignment, ClauseList, Lines, Lit};
use l2_order::Order;
use l2_watch::{Watch, greatest};
use std::alloc::{AllocError, Global};
use std::marker::Model;

/// What a turn of the search did.
#[derive(Clone, Copy)]
pub enum Turn {
    /// A clause was learnt.
    Learnt,
    /// A literal was decided.
    Decided,
    /// Every variable has a value.
    Whole,
    /// The clause at this index is false, though nothing was decided.
    Closed(u64),
    /// So many of the assumptions can't be met together.
    Refuted(usize),
}

/// The clauses added and learnt, with all that the search needs.
#[derive(Drop)]
pub struct Engine {
    alloc: Global,
    watch: Watch,
    learnt_at: Vec<u64>,
    marks: Marks,
    notes: Notes,
    order: Order,
    refuted: bool,
    log: Log,
}

impl Model for Engine {
    ghost use Rattle.l2_cdcl.specs.Learning.{learnt_of, added_of};
    ghost use Rattle.l2_cdcl.specs.Search.{Search, IsEngine};
    ghost use Rattle.std.specs.Prelude.{length};

    ghost Value = { Search };

    ghost view = { λ a. record { added = added_of a.learnt_at.items a.watch.clauses; learnt = learnt_of a.learnt_at.items a.watch.clauses; board = a.watch; marked = length a.marks; logged = a.log.kept; steps = a.log.steps } };

    ghost invariant = { λ a. IsEngine a.learnt_at.items a.watch a.marks a.refuted a.log };
}

impl Engine {
    pub fn new(alloc: Global, logged: bool) -> Result<Engine, AllocError>
        ensures added { IfOk result (λ e. e.added ≡ []) }
        ensures learnt { IfOk result (λ e. e.learnt ≡ []) }
        ensures logged { IfOk result (λ e. e.logged ≡ logged) }
        ensures steps { IfOk result (λ e. e.steps ≡ []) }
    {
        Ok(Engine {
            alloc,
            watch: Watch::new(alloc)?,
            learnt_at: Vec::new(alloc),
            marks: Marks::new(alloc, 1)?,
            notes: Notes::new(alloc),
            order: Order::new(alloc),
            refuted: false,
            log: Log::new(alloc, logged),
        })
    }

    /// Adds a clause.
    pub fn add(&mut self, clause: &[Lit]) -> Result<(), AllocError>
        requires { self.old.logged ≡ true → self.old.learnt ≡ [] }
        ensures ok { OnOk result (self.new.added ≡ self.old.added ++ clause.now ∷ []) }
        ensures err { OnErr result (self.new.added ≡ self.old.added) }
        ensures learnt { self.new.learnt ≡ self.old.learnt }
        ensures logged { self.new.logged ≡ self.old.logged }
    {
        release_from(&self.watch, &mut self.order, 0);
        self.watch.add(clause)?;
        Ok(())
    }

    /// Adds clauses. For want of memory it may have added the first of them alone.
    pub fn add_list(&mut self, list: &ClauseList) -> Result<(), AllocError>
        requires { self.old.logged ≡ true → self.old.learnt ≡ [] }
        ensures ok { OnOk result (self.new.added ≡ self.old.added ++ list.now) }
        ensures err { OnErr result ((n : ℕ) × (n ≤ length list.now) × (self.new.added ≡ self.old.added ++ take n list.now)) }
        ensures learnt { self.new.learnt ≡ self.old.learnt }
        ensures logged { self.new.logged ≡ self.old.logged }
    {
        for i in 0..list.len() {
            self.add(list.clause(i))?;
        }
        Ok(())
    }

    /// What holds of every search. It does nothing.
    pub fn facts(&self)
        ensures { IsSearch self.now }
    {
        let _ = &self.refuted;
        self.watch.facts();
    }

    /// The values by which the literals of the board are true.
    pub fn assignment(&self) -> Result<Assignment, AllocError>
        ensures { IfOk result (λ a. (l : ℤ) → Contains self.now.board.past.literals l → MakesTrue a l) }
    {
        assignment_of(self.alloc, &self.watch)
    }

    /// A core of these assumptions.
    pub fn core(&self, literals: &[Lit]) -> Result<Core, AllocError>
        ensures { IfOk result (λ c. c ≡ literals.now) }
    {
        Core::new(self.alloc, literals)
    }

    /// The number of clauses added.
    pub fn added_len(&self) -> u64
        ensures len { result ≡ length self.now.added }
        ensures small { result < 2 ^ 60 }
    {
        self.watch.count() - self.learnt_at.as_slice().len() as u64
    }

    /// The number of clauses learnt.
    pub fn learnt_len(&self) -> u64
        ensures len { result ≡ length self.now.learnt }
        ensures small { result < 2 ^ 60 }
    {
        self.learnt_at.as_slice().len() as u64
    }

    /// A clause that was learnt.
    pub fn learnt(&self, i: u64) -> &[Lit]
        requires { i < length self.now.learnt }
        ensures { result.now ≡ slice_index_or self.now.learnt i [] }
    {
        self.watch.clause(self.learnt_at[i as usize])
    }

    /// The log of what was learnt, if one is kept.
    pub fn log(&self) -> &Lines
        ensures { result.now ≡ self.now.steps }
    {
        self.log.lines()
    }

    /// The log of what was learnt, of a search that is no longer needed.
    pub fn into_log(self) -> Lines
        ensures { result ≡ self.steps }
    {
        self.log.into_lines()
    }

    /// Whether the empty clause was learnt.
    pub fn is_refuted(&self) -> bool
        ensures { IsTrue result ↔ Contains self.now.learnt [] }
    {
        self.refuted
    }
}

// Notes that the clause that comes next is learnt, and how. For want of memory all stays as it was.
fn note(
    learnt_at: &mut Vec<u64>,
    log: &mut Log,
    index: u64,
    clause: &[Lit],
    hints: &[u64],
) -> Result<(), AllocError>
    requires { index < 2 ^ 60 }
    ensures at { OnOk result (learnt_at.new.items ≡ learnt_at.old.items ++ index ∷ []) }
    ensures line { OnOk result (log.old.kept ≡ true → log.new.steps ≡ log.old.steps ++ step_of (index + 1) clause.now hints.now ∷ []) }
    ensures kept { log.new.kept ≡ log.old.kept }
    ensures same { OnErr result ((learnt_at.new.items ≡ learnt_at.old.items) × (log.new ≡ log.old)) }
{
    learnt_at.push(index)?;
    if let Err(e) = log.push(index + 1, clause, hints) {
        learnt_at.pop();
        return Err(e);
    }
    Ok(())
}

// Takes back what was noted last.
fn forget(learnt_at: &mut Vec<u64>, log: &mut Log)
    ensures at { learnt_at.new.items ≡ take (length learnt_at.old.items - 1) learnt_at.old.items }
    ensures line { log.old.kept ≡ true → log.new.steps ≡ take (length log.old.steps - 1) log.old.steps }
    ensures kept { log.new.kept ≡ log.old.kept }
{
    learnt_at.pop();
    log.pop();
}

impl Engine {
    /// Learns the empty clause, where a clause is false though nothing was decided.
    pub fn refute(&mut self, conflict: u64) -> Result<(), AllocError>
        requires { IsRootConflict self.old.board conflict }
        ensures ok { OnOk result (self.new.learnt ≡ self.old.learnt ++ [] ∷ []) }
        ensures err { OnErr result (self.new.learnt ≡ self.old.learnt) }
        ensures added { self.new.added ≡ self.old.added }
        ensures logged { self.new.logged ≡ self.old.logged }
    {
        let _ = &self.refuted;
        self.watch.facts();
        let hints = root_hints(&self.watch, self.log.is_kept(), conflict, self.alloc)?;
        note(
            &mut self.learnt_at,
            &mut self.log,
            self.watch.count(),
            &[],
            &hints,
        )?;
        release_from(&self.watch, &mut self.order, 0);
        if let Err(e) = self.watch.add(&[]) {
            forget(&mut self.learnt_at, &mut self.log);
            return Err(e);
        }
        self.refuted = true;
        Ok(())
    }
}

impl Engine {
    /// Makes ready for these assumptions. It answers a clause that is false though nothing was decided, if it comes upon one.
    pub fn begin(&mut self, assumptions: &[Lit]) -> Result<Option<u64>, AllocError>
        ensures clauses { self.new.board.clauses ≡ self.old.board.clauses }
        ensures added { self.new.added ≡ self.old.added }
        ensures learnt { self.new.learnt ≡ self.old.learnt }
        ensures logged { self.new.logged ≡ self.old.logged }
        ensures cases { IfOk result (λ o. MatchOption o (IsReady assumptions.now self.new) (λ r. IsRootConflict self.new.board r)) }
    {
        self.cover(assumptions)?;
        release(&self.watch, &mut self.order, 0);
        self.watch.start()
    }

    // Makes room for the variables of the clauses and the assumptions.
    fn cover(&mut self, assumptions: &[Lit]) -> Result<(), AllocError>
        ensures clauses { self.new.board.clauses ≡ self.old.board.clauses }
        ensures added { self.new.added ≡ self.old.added }
        ensures learnt { self.new.learnt ≡ self.old.learnt }
        ensures logged { self.new.logged ≡ self.old.logged }
        ensures over { OnOk result (AreOver self.new.board.variables assumptions.now) }
        ensures room { OnOk result (self.new.board.variables < self.new.marked) }
    {
        let var = greatest(assumptions);
        release_for(&self.watch, &mut self.order, var);
        self.watch.cover(var)?;
        self.watch.facts();
        let variables = self.watch.variables();
        self.order.cover(variables)?;
        self.notes.cover(variables)?;
        if self.marks.len() as u64 <= variables {
            self.marks = Marks::new(self.alloc, variables)?;
        }
        Ok(())
    }
}

impl Engine {
    /// Propagates, and then learns a clause or decides a literal.
    pub fn turn(&mut self, assumptions: &[Lit]) -> Result<Turn, AllocError>
        requires { IsReady assumptions.now self.old }
        ensures ready { IsReady assumptions.now self.new }
        ensures added { self.new.added ≡ self.old.added }
        ensures variables { self.new.board.variables ≡ self.old.board.variables }
        ensures logged { self.new.logged ≡ self.old.logged }
        ensures err { OnErr result (self.new.learnt ≡ self.old.learnt) }
        ensures turn { IfOk result (λ t. IsTurn assumptions.now self.old self.new t) }
    {
        match self.watch.propagate()? {
            Some(conflict) => Ok(self.meet_conflict(assumptions, conflict)?),
            None => Ok(self.extend(assumptions)?),
        }
    }

    // Decides the next assumption, or a variable without a value.
    fn extend(&mut self, assumptions: &[Lit]) -> Result<Turn, AllocError>
        requires ready { IsReady assumptions.now self.old }
        requires seen { self.old.board.seen ≡ length self.old.board.past.literals }
        ensures ready { IsReady assumptions.now self.new }
        ensures added { self.new.added ≡ self.old.added }
        ensures learnt { self.new.learnt ≡ self.old.learnt }
        ensures variables { self.new.board.variables ≡ self.old.board.variables }
        ensures logged { self.new.logged ≡ self.old.logged }
        ensures turn { IfOk result (λ t. IsTurn assumptions.now self.old self.new t) }
    {
        let level = self.watch.levels();
        self.watch.facts();
        if level < assumptions.len() {
            let literal = assumptions[level];
            if self.watch.is_false(literal) {
                return Ok(Turn::Refuted(level + 1));
            }
            self.watch.decide(literal)?;
            return Ok(Turn::Decided);
        }
        match self.order.pick(&self.watch) {
            None => Ok(Turn::Whole),
            Some(literal) => {
                self.watch.decide(literal)?;
                Ok(Turn::Decided)
            }
        }
    }

    // Gives up where assumptions alone were decided, and else learns a clause.
    fn meet_conflict(&mut self, assumptions: &[Lit], conflict: u64) -> Result<Turn, AllocError>
        requires ready { IsReady assumptions.now self.old }
        requires conflict { conflict < length self.old.board.clauses }
        requires false_ones { AreFalse self.old.board.past.literals (slice_index_or self.old.board.clauses conflict []) }
        ensures ready { IsReady assumptions.now self.new }
        ensures added { self.new.added ≡ self.old.added }
        ensures variables { self.new.board.variables ≡ self.old.board.variables }
        ensures logged { self.new.logged ≡ self.old.logged }
        ensures err { OnErr result (self.new.learnt ≡ self.old.learnt) }
        ensures turn { IfOk result (λ t. IsTurn assumptions.now self.old self.new t) }
    {
        let level = self.watch.levels();
        self.watch.facts();
        if level == 0 {
            return Ok(Turn::Closed(conflict));
        }
        if level <= assumptions.len() {
            return Ok(Turn::Refuted(level));
        }
        let mut aside = Aside::new(self.alloc);
        let mut hints = Hints::new(self.alloc, self.log.is_kept());
        let at = Bounds {
            low: low_of(&self.watch, self.log.is_kept()),
            start: self.watch.start_of(level - 1),
        };
        let root = self.watch.start_of(0);
        let point = trace(
            &self.watch,
            &mut self.marks,
            &mut self.notes,
            &mut self.order,
            at,
            root,
            conflict,
            &mut aside,
            &mut hints,
            self.alloc,
        )?;
        hints.turn();
        let u = self.watch.literal(point).negated();
        let target = aim(&self.watch, at.start, aside.as_slice(), u);
        aside.push(u)?;
        let anew = self.order.decay();
        self.learn(aside.as_slice(), hints.numbers(), u, target)?;
        self.restart(anew, assumptions.len());
        Ok(Turn::Learnt)
    }

    // Goes back to the assumptions, if the search is to begin anew.
    fn restart(&mut self, anew: bool, level: usize)
        requires { self.old.board.ready ≡ true }
        ensures added { self.new.added ≡ self.old.added }
        ensures learnt { self.new.learnt ≡ self.old.learnt }
        ensures variables { self.new.board.variables ≡ self.old.board.variables }
        ensures logged { self.new.logged ≡ self.old.logged }
        ensures ready { self.new.board.ready ≡ true }
        ensures levels { (n : ℕ) × (n ≤ length self.old.board.levels) × (self.new.board.levels ≡ take n self.old.board.levels) }
    {
        if anew && level < self.watch.levels() {
            release(&self.watch, &mut self.order, level);
            self.watch.back(level);
        }
    }

    // Goes back to the level of a clause, learns it there and makes u true.
    fn learn(
        &mut self,
        clause: &[Lit],
        hints: &[u64],
        u: Lit,
        target: Target,
    ) -> Result<(), AllocError>
        requires ready { self.old.board.ready ≡ true }
        requires level { target.level < length self.old.board.levels }
        requires learnt { IsLearnt (take (start_of self.old.board.levels target.level) self.old.board.past.literals) (take target.level self.old.board.levels) clause.now u target.second }
        requires over { AreOver self.old.board.variables clause.now }
        requires follows { Follows self.old.board.clauses clause.now }
        requires step { self.old.logged ≡ true → IsStep self.old.board.clauses (greatest_of self.old.added) (length self.old.board.clauses + 1) clause.now hints.now }
        ensures ok { OnOk result (self.new.learnt ≡ self.old.learnt ++ clause.now ∷ []) }
        ensures err { OnErr result (self.new.learnt ≡ self.old.learnt) }
        ensures added { self.new.added ≡ self.old.added }
        ensures variables { self.new.board.variables ≡ self.old.board.variables }
        ensures logged { self.new.logged ≡ self.old.logged }
        ensures levels { self.new.board.levels ≡ take target.level self.old.board.levels }
        ensures still { self.new.board.ready ≡ true }
    {
        release(&self.watch, &mut self.order, target.level);
        self.watch.back(target.level);
        let _ = &self.refuted;
        note(
            &mut self.learnt_at,
            &mut self.log,
            self.watch.count(),
            clause,
            hints,
        )?;
        if let Err(e) = self.watch.learn(clause, u, target.second) {
            forget(&mut self.learnt_at, &mut self.log);
            return Err(e);
        }
        Ok(())
    }
}

// Where the literals begin that need care: where a log is kept all do, so that no hint is needed for those of level 0.
fn low_of(watch: &Watch, logged: bool) -> usize
    requires { 0 < length watch.now.levels }
    ensures most { result ≤ start_of watch.now.levels 0 }
    ensures all { logged ≡ true → result ≡ 0 }
{
    if logged { 0 } else { watch.start_of(0) }
}

// Tells the order that the literals from a place on are taken back.
fn release_from(watch: &Watch, order: &mut Order, start: usize) {
    for i in start..watch.len() {
        order.release(watch.literal(i));
    }
}

// Tells the order which literals are taken back where the search goes to a level.
fn release(watch: &Watch, order: &mut Order, level: usize) {
    if level < watch.levels() {
        release_from(watch, order, watch.start_of(level));
    }
}

// Tells the order which literals are taken back where a variable is taken in.
fn release_for(watch: &Watch, order: &mut Order, var: u64) {
    if var > watch.variables() {
        release_from(watch, order, 0);
    }
}

/// What a search found.
#[derive(Clone, Copy)]
pub enum Verdict {
    /// Every variable has a value.
    Whole,
    /// The clause at this index is false, though nothing was decided.
    Closed(u64),
    /// So many of the assumptions can't be met together.
    Refuted(usize),
}

impl Engine {
    /// Takes turns until every variable has a value, or some of the assumptions can't be met. It ends, since no clause is
    /// learnt twice.
    pub fn search(&mut self, assumptions: &[Lit]) -> Result<Verdict, AllocError>
        requires { IsReady assumptions.now self.old }
        ensures added { self.new.added ≡ self.old.added }
        ensures logged { self.new.logged ≡ self.old.logged }
        ensures found { IsSearched assumptions.now self.old self.new }
        ensures verdict { IfOk result (λ v. IsVerdict assumptions.now self.new v) }
        ensures whole { result ≡ Ok Verdict.Whole → ¬ Settles (self.old.added ++ self.old.learnt) assumptions.now }
    {
        'turns: loop {
            self.facts();
            match self.turn(assumptions)? {
                Turn::Learnt | Turn::Decided => self.facts(),
                Turn::Whole => {
                    self.facts();
                    return Ok(Verdict::Whole);
                }
                Turn::Closed(conflict) => return Ok(Verdict::Closed(conflict)),
                Turn::Refuted(n) => return Ok(Verdict::Refuted(n)),
            }
        }
    }
}
