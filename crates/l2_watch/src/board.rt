ghost use Rattle.std.specs.Prelude.{◌≡◌, ◌≢◌, ◌⊎◌, ◌≤◌, ◌<◌, ◌^◌, ◌+◌, ◌*◌, ◌++◌, ◌∷◌, [], ℕ, ℤ, pos, neg_ℤ, nat_abs, List, length, take, IfOk, OnOk, OnErr, IsTrue, ◌↔◌, Contains, slice_index_or, Bool, true, false, Ok, Some, None};
ghost use Rattle.l2_cnf.specs.Trail.{AreOver};
ghost use Rattle.l2_watch.specs.Past.{Past, IsGrown};
ghost use Rattle.l2_watch.specs.Watch.{IsClosed};
ghost use Rattle.l2_watch.specs.Visit.{AreFalse};
ghost use Rattle.l2_watch.specs.Board.{Board, IsBoard, IsDecided, IsLearnt, start_of};

use crate::attach::{attach, first_pair, greatest, note_single, widen};
use crate::entry::{Entry, ShortLit};
use crate::history::History;
use crate::raise::raise;
use crate::visit::visit_list;
use l2_cnf::{ClauseList, Lit};
use std::alloc::{AllocError, Global};
use std::marker::Model;
use std::mem;

/// Clauses that are watched by two of their literals, and the literals that are true, by levels. A board is whole after
/// want of memory too.
#[derive(Drop)]
pub struct Watch {
    alloc: Global,
    clauses: ClauseList,
    pairs: Vec<(ShortLit, ShortLit)>,
    lists: Vec<Vec<Entry>>,
    singles: Vec<u64>,
    history: History,
    levels: Vec<(usize, Lit)>,
    seen: usize,
    variables: u64,
    ready: bool,
}

impl Model for Watch {
    ghost use Rattle.std.specs.Prelude.{List};
    ghost use Rattle.l2_watch.specs.Visit.{items_of, entries_of, AreAllEntries, HasSingles};
    ghost use Rattle.l2_watch.specs.Board.{Board, IsKept};

    ghost Value = { Board };

    ghost view = { λ a. record { clauses = a.clauses; variables = a.variables; past = a.history; levels = a.levels.items; seen = a.seen; ready = a.ready } };

    ghost invariant = { λ a. (IsKept a.clauses a.variables a.pairs.items (items_of a.lists.items) a.history a.levels.items a.seen a.ready)
        × (AreAllEntries a.clauses (entries_of a.lists.items))
        × (HasSingles a.clauses a.singles.items) };
}

impl Watch {
    pub fn new(alloc: Global) -> Result<Watch, AllocError>
        ensures clauses { IfOk result (λ w. w.clauses ≡ []) }
        ensures levels { IfOk result (λ w. w.levels ≡ []) }
        ensures ready { IfOk result (λ w. w.ready ≡ false) }
    {
        let mut lists = Vec::new(alloc);
        widen(alloc, &mut lists, 4)?;
        Ok(Watch {
            alloc,
            clauses: ClauseList::new(alloc),
            pairs: Vec::new(alloc),
            lists,
            singles: Vec::new(alloc),
            history: History::new(alloc, 1)?,
            levels: Vec::new(alloc),
            seen: 0,
            variables: 1,
            ready: false,
        })
    }

    /// What holds of every board. It does nothing.
    pub fn facts(&self)
        ensures { IsBoard self.now }
    {
        let _ = &self.history;
        let _ = self.history.len();
    }

    /// Takes every literal out, and gives up that the board is ready.
    pub fn reset(&mut self)
        ensures clauses { self.new.clauses ≡ self.old.clauses }
        ensures variables { self.new.variables ≡ self.old.variables }
        ensures levels { self.new.levels ≡ [] }
        ensures literals { self.new.past.literals ≡ [] }
        ensures ready { self.new.ready ≡ false }
    {
        self.history.cut(0);
        self.levels.clear();
        self.seen = 0;
        self.ready = false;
    }

    /// Takes in the variables up to this one. There is room for 2^31.
    pub fn cover(&mut self, var: u64) -> Result<(), AllocError>
        requires { var < 2 ^ 62 }
        ensures clauses { self.new.clauses ≡ self.old.clauses }
        ensures over { OnOk result (var ≤ self.new.variables) }
        ensures more { self.old.variables ≤ self.new.variables }
        ensures same { var ≤ self.old.variables → self.new ≡ self.old }
        ensures kept { self.new.ready ≡ true → self.new ≡ self.old }
        ensures levels { self.old.levels ≡ [] → self.new.levels ≡ [] }
        ensures ready { self.old.ready ≡ false → self.new.ready ≡ false }
    {
        if var >= 1 << 31 {
            return Err(AllocError);
        }
        if var > self.variables {
            self.reset();
            widen(self.alloc, &mut self.lists, 2 * var as usize + 2)?;
            self.variables = var;
        }
        Ok(())
    }

    /// Adds a clause, and takes every literal out.
    pub fn add(&mut self, clause: &[Lit]) -> Result<(), AllocError>
        ensures ok { OnOk result (self.new.clauses ≡ self.old.clauses ++ clause.now ∷ []) }
        ensures err { OnErr result (self.new.clauses ≡ self.old.clauses) }
        ensures levels { self.new.levels ≡ [] }
        ensures ready { self.new.ready ≡ false }
    {
        self.reset();
        self.cover(greatest(clause))?;
        let (a, b) = first_pair(clause);
        let r = self.clauses.len();
        note_single(&mut self.singles, a, b, r)?;
        attach(
            &mut self.clauses,
            &mut self.pairs,
            &mut self.lists,
            clause,
            a,
            b,
        )?;
        Ok(())
    }

    /// Goes to level 0 of a ready board, or else makes it ready: each clause with one literal makes it true. It answers a
    /// clause whose literals are all false, if it comes upon one.
    pub fn start(&mut self) -> Result<Option<u64>, AllocError>
        ensures clauses { self.new.clauses ≡ self.old.clauses }
        ensures variables { self.new.variables ≡ self.old.variables }
        ensures levels { self.new.levels ≡ [] }
        ensures none { result ≡ Ok None → self.new.ready ≡ true }
        ensures conflict { (r : ℕ) → result ≡ Ok (Some r) → (r < length self.new.clauses) × AreFalse self.new.past.literals (slice_index_or self.new.clauses r []) }
    {
        if self.ready {
            self.back_to_start();
            return Ok(None);
        }
        self.reset();
        self.renew()?;
        Ok(self.raise_all())
    }

    // Goes to level 0.
    fn back_to_start(&mut self)
        requires { self.old.ready ≡ true }
        ensures clauses { self.new.clauses ≡ self.old.clauses }
        ensures variables { self.new.variables ≡ self.old.variables }
        ensures levels { self.new.levels ≡ [] }
        ensures ready { self.new.ready ≡ true }
    {
        if self.levels() > 0 {
            self.back(0);
        }
    }

    // Makes room for the values of all variables.
    fn renew(&mut self) -> Result<(), AllocError>
        requires levels { self.old.levels ≡ [] }
        requires literals { self.old.past.literals ≡ [] }
        requires ready { self.old.ready ≡ false }
        ensures clauses { self.new.clauses ≡ self.old.clauses }
        ensures variables { self.new.variables ≡ self.old.variables }
        ensures levels { self.new.levels ≡ [] }
        ensures literals { self.new.past.literals ≡ [] }
        ensures ready { self.new.ready ≡ false }
        ensures room { OnOk result (self.new.past.variables ≡ self.new.variables) }
    {
        if self.history.variables() < self.variables {
            self.history = History::new(self.alloc, self.variables)?;
            self.seen = 0;
        }
        Ok(())
    }

    // Makes the literals of the clauses that have one true.
    fn raise_all(&mut self) -> Option<u64>
        requires levels { self.old.levels ≡ [] }
        requires literals { self.old.past.literals ≡ [] }
        requires room { self.old.past.variables ≡ self.old.variables }
        ensures clauses { self.new.clauses ≡ self.old.clauses }
        ensures variables { self.new.variables ≡ self.old.variables }
        ensures levels { self.new.levels ≡ [] }
        ensures none { result ≡ None → self.new.ready ≡ true }
        ensures conflict { (r : ℕ) → result ≡ Some r → (r < length self.new.clauses) × AreFalse self.new.past.literals (slice_index_or self.new.clauses r []) }
    {
        let _len = self.history.len();
        self.seen = 0;
        match raise(&self.clauses, &self.pairs, &self.singles, &mut self.history) {
            Some(r) => {
                self.ready = false;
                Some(r)
            }
            None => {
                self.ready = true;
                None
            }
        }
    }

    /// Looks at the clauses that watch the next literal that became false.
    fn round(&mut self) -> Result<Option<u64>, AllocError>
        requires ready { self.old.ready ≡ true }
        requires more { self.old.seen < length self.old.past.literals }
        ensures clauses { self.new.clauses ≡ self.old.clauses }
        ensures variables { self.new.variables ≡ self.old.variables }
        ensures levels { self.new.levels ≡ self.old.levels }
        ensures ready { self.new.ready ≡ true }
        ensures grown { IsGrown self.old.clauses self.old.past self.new.past }
        ensures none { result ≡ Ok None → self.new.seen ≡ self.old.seen + 1 }
        ensures conflict { (r : ℕ) → result ≡ Ok (Some r) → (r < length self.new.clauses) × AreFalse self.new.past.literals (slice_index_or self.new.clauses r []) }
    {
        let _len = self.history.len();
        let a = self.history.get(self.seen).negated();
        let code = a.code() as usize;
        let mut list = mem::replace(&mut self.lists[code], Vec::new(self.alloc));
        let answer = visit_list(
            &self.clauses,
            &mut self.history,
            &mut self.pairs,
            &mut self.lists,
            self.seen,
            a,
            &mut list,
        );
        self.lists[code] = list;
        match answer? {
            Some(r) => Ok(Some(r)),
            None => {
                self.seen += 1;
                Ok(None)
            }
        }
    }

    /// Makes true all that unit propagation reaches. It answers a clause whose literals are all false, if it comes upon one.
    pub fn propagate(&mut self) -> Result<Option<u64>, AllocError>
        requires { self.old.ready ≡ true }
        ensures clauses { self.new.clauses ≡ self.old.clauses }
        ensures variables { self.new.variables ≡ self.old.variables }
        ensures levels { self.new.levels ≡ self.old.levels }
        ensures ready { self.new.ready ≡ true }
        ensures grown { IsGrown self.old.clauses self.old.past self.new.past }
        ensures none { result ≡ Ok None → self.new.seen ≡ length self.new.past.literals }
        ensures conflict { (r : ℕ) → result ≡ Ok (Some r) → (r < length self.new.clauses) × AreFalse self.new.past.literals (slice_index_or self.new.clauses r []) }
    {
        self.facts();
        while self.is_unseen() {
            if let Some(r) = self.round()? {
                return Ok(Some(r));
            }
        }
        Ok(None)
    }

    // Whether there is a literal that wasn't looked at.
    fn is_unseen(&self) -> bool
        ensures unseen { IsTrue result ↔ self.now.seen < length self.now.past.literals }
        ensures seen { self.now.seen ≤ length self.now.past.literals }
        ensures most { length self.now.past.literals ≤ self.now.variables }
        ensures count { length self.now.past.reasons ≡ length self.now.past.literals }
    {
        self.seen < self.history.len()
    }

    /// Opens a level with a literal that isn't false.
    pub fn decide(&mut self, l: Lit) -> Result<(), AllocError>
        requires ready { self.old.ready ≡ true }
        requires seen { self.old.seen ≡ length self.old.past.literals }
        requires over { nat_abs l ≤ self.old.variables }
        requires live { ¬ Contains self.old.past.literals (neg_ℤ l) }
        ensures clauses { self.new.clauses ≡ self.old.clauses }
        ensures variables { self.new.variables ≡ self.old.variables }
        ensures levels { OnOk result (self.new.levels ≡ self.old.levels ++ (length self.old.past.literals, l) ∷ []) }
        ensures literals { OnOk result (IsDecided self.old.past.literals self.new.past.literals l) }
        ensures same { OnErr result (self.new ≡ self.old) }
        ensures ready { self.new.ready ≡ true }
    {
        let start = self.history.len();
        self.levels.push((start, l))?;
        if !self.history.is_true(l) {
            self.history.push(l, 0);
        }
        Ok(())
    }

    /// Goes back to a level below the present one.
    pub fn back(&mut self, level: usize)
        requires ready { self.old.ready ≡ true }
        requires level { level < length self.old.levels }
        ensures clauses { self.new.clauses ≡ self.old.clauses }
        ensures variables { self.new.variables ≡ self.old.variables }
        ensures levels { self.new.levels ≡ take level self.old.levels }
        ensures literals { self.new.past.literals ≡ take (start_of self.old.levels level) self.old.past.literals }
        ensures reasons { self.new.past.reasons ≡ take (start_of self.old.levels level) self.old.past.reasons }
        ensures seen { self.new.seen ≡ length self.new.past.literals }
        ensures ready { self.new.ready ≡ true }
    {
        let start = self.levels[level].0;
        self.history.cut(start);
        self.levels.truncate(level);
        self.seen = start;
    }

    /// Puts a clause behind the others and makes its first literal u true. The other literals are false, and beside u it watches
    /// w, which wasn't false when the present level was opened. A clause with one literal is learnt at level 0.
    pub fn learn(&mut self, clause: &[Lit], u: Lit, w: Lit) -> Result<(), AllocError>
        requires ready { self.old.ready ≡ true }
        requires seen { self.old.seen ≡ length self.old.past.literals }
        requires over { AreOver self.old.variables clause.now }
        requires learnt { IsLearnt self.old.past.literals self.old.levels clause.now u w }
        ensures clauses { OnOk result (self.new.clauses ≡ self.old.clauses ++ clause.now ∷ []) }
        ensures literals { OnOk result (self.new.past.literals ≡ self.old.past.literals ++ u ∷ []) }
        ensures same { OnErr result (self.new ≡ self.old) }
        ensures variables { self.new.variables ≡ self.old.variables }
        ensures levels { self.new.levels ≡ self.old.levels }
        ensures ready { self.new.ready ≡ true }
    {
        let _len = self.history.len();
        let r = self.clauses.len();
        note_single(&mut self.singles, u, w, r)?;
        attach(
            &mut self.clauses,
            &mut self.pairs,
            &mut self.lists,
            clause,
            u,
            w,
        )?;
        self.history.push(u, r + 1);
        Ok(())
    }
}

impl Watch {
    pub fn variables(&self) -> u64
        ensures { result ≡ self.now.variables }
    {
        self.variables
    }

    /// The number of literals that are true.
    pub fn len(&self) -> usize
        ensures { result ≡ length self.now.past.literals }
    {
        self.history.len()
    }

    /// The number of levels.
    pub fn levels(&self) -> usize
        ensures { result ≡ length self.now.levels }
    {
        self.levels.len()
    }

    /// The number of literals that were true when a level was opened.
    pub fn start_of(&self, level: usize) -> usize
        requires { level < length self.now.levels }
        ensures { result ≡ start_of self.now.levels level }
    {
        self.levels[level].0
    }

    /// A literal that is true.
    pub fn literal(&self, i: usize) -> Lit
        requires { i < length self.now.past.literals }
        ensures { result ≡ slice_index_or self.now.past.literals i (pos 0) }
    {
        self.history.get(i)
    }

    /// Its reason: 0 where it was decided, else the number of the clause that implied it, from 1.
    pub fn reason(&self, i: usize) -> u64
        requires { i < length self.now.past.literals }
        ensures { result ≡ slice_index_or self.now.past.reasons i 0 }
    {
        self.history.reason(i)
    }

    /// Where a literal that is true stands.
    pub fn place(&self, l: Lit) -> usize
        requires { Contains self.now.past.literals l }
        ensures within { result < length self.now.past.literals }
        ensures there { slice_index_or self.now.past.literals result (pos 0) ≡ l }
    {
        self.history.place(l)
    }

    pub fn is_true(&self, l: Lit) -> bool
        requires over { nat_abs l ≤ self.now.variables }
        requires ready { self.now.ready ≡ true }
        ensures { IsTrue result ↔ Contains self.now.past.literals l }
    {
        self.history.is_true(l)
    }

    pub fn is_false(&self, l: Lit) -> bool
        requires over { nat_abs l ≤ self.now.variables }
        requires ready { self.now.ready ≡ true }
        ensures { IsTrue result ↔ Contains self.now.past.literals (neg_ℤ l) }
    {
        self.history.is_false(l)
    }

    /// The number of clauses.
    pub fn count(&self) -> u64
        ensures len { result ≡ length self.now.clauses }
        ensures small { result < 2 ^ 60 }
    {
        self.clauses.len()
    }

    pub fn clause(&self, r: u64) -> &[Lit]
        requires { r < length self.now.clauses }
        ensures { result.now ≡ slice_index_or self.now.clauses r [] }
    {
        self.clauses.clause(r)
    }
}
