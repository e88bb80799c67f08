ghost use Rattle.std.specs.Prelude.{◌≡◌, ◌≤◌, ◌<◌, ◌^◌, ◌∷◌, [], ℕ, Bool, length, IfOk, OnOk, OnErr, IsTrue, ◌↔◌, slice_index_or};
ghost use Rattle.std.specs.Bool.{OnTrue};
ghost use Rattle.l2_cnf.specs.Logic.{IsWithin, AllWithin, Satisfies, HasTrue};
ghost use Rattle.l2_cnf.specs.Steps.{EndsEmpty};
ghost use Rattle.l2_rup.specs.Checked.{fresh, formula_of, known_of, with_step};

use crate::held::Held;
use l2_cnf::{ClauseList, Lit};
use std::alloc::{AllocError, Global};
use std::marker::Model;

/// The clauses that a hint can name: the base, the last clauses of the formula, and the accepted ones.
#[derive(Drop)]
pub struct Known<'a> {
    base: &'a ClauseList,
    last: ClauseList,
    steps: Held,
    variables: u64,
    alloc: Global,
}

impl<'a> Model for Known<'a> {
    ghost use Rattle.std.specs.Prelude.{ℕ, Bool, ◌++◌};
    ghost use Rattle.l2_cnf.specs.Logic.{AllWithin, Satisfies};
    ghost use Rattle.l2_rup.specs.Checked.{Checked};

    ghost Value = { Checked };

    ghost view = { λ a. record {
      base = a.base.now;
      last = a.last;
      steps = a.steps.clauses;
      variables = a.variables;
      lines = a.steps.lines;
      literals = a.steps.literals;
    } };

    ghost invariant = { λ a. (AllWithin a.variables (a.base.now ++ a.last ++ a.steps.clauses))
        × ((v : ℕ → Bool) → Satisfies v (a.base.now ++ a.last) → Satisfies v a.steps.clauses) };
}

impl<'a> Known<'a> {
    pub fn new(
        alloc: Global,
        base: &'a ClauseList,
        last: ClauseList,
        variables: u64,
        lines: u64,
        literals: u64,
    ) -> Result<Known<'a>, AllocError>
        requires base { AllWithin variables base.now }
        requires last { AllWithin variables last }
        ensures { IfOk result (λ k. k ≡ fresh base.now last variables lines literals) }
    {
        let steps = Held::new(alloc, lines, literals)?;
        Ok(Known {
            base,
            last,
            steps,
            variables,
            alloc,
        })
    }

    /// Begins anew over the same base with this last clause.
    pub fn restart(&mut self, last: &[Lit], lines: u64, literals: u64) -> Result<(), AllocError>
        requires { IsWithin self.old.variables last.now }
        ensures ok { OnOk result (self.new ≡ fresh self.old.base (last.now ∷ []) self.old.variables lines literals) }
        ensures err { OnErr result (self.new ≡ self.old) }
    {
        let mut one = ClauseList::new(self.alloc);
        one.push(last)?;
        let steps = Held::new(self.alloc, lines, literals)?;
        self.last = one;
        self.steps = steps;
        Ok(())
    }

    pub fn len(&self) -> u64
        ensures len { result ≡ length (known_of self.now) }
        ensures small { result < 2 ^ 62 }
    {
        self.base.len() + self.last.len() + self.steps.len()
    }

    pub fn clause(&self, i: u64) -> &[Lit]
        requires { i < length (known_of self.now) }
        ensures clause { result.now ≡ slice_index_or (known_of self.now) i [] }
        ensures within { IsWithin self.now.variables result.now }
    {
        let first = self.base.len();
        if i < first {
            return self.base.clause(i);
        }
        let second = self.last.len();
        if i - first < second {
            self.last.clause(i - first)
        } else {
            self.steps.clause(i - first - second)
        }
    }

    pub fn push(&mut self, clause: &[Lit])
        requires lines { 1 ≤ self.old.lines }
        requires literals { length clause.now ≤ self.old.literals }
        requires within { IsWithin self.old.variables clause.now }
        requires implied { (v : ℕ → Bool) → Satisfies v (known_of self.old) → HasTrue v clause.now }
        ensures taken { self.new ≡ with_step self.old clause.now }
        ensures implied { (v : ℕ → Bool) → Satisfies v (formula_of self.old) → HasTrue v clause.now }
    {
        self.steps.push(clause);
    }

    /// Whether the last accepted clause is the empty one.
    pub fn ends_empty(&self) -> bool
        ensures exact { IsTrue result ↔ EndsEmpty self.now.steps }
        ensures refuted { OnTrue result ((v : ℕ → Bool) → ¬ Satisfies v (formula_of self.now)) }
    {
        let count = self.steps.len();
        count > 0 && self.steps.clause(count - 1).is_empty()
    }
}
