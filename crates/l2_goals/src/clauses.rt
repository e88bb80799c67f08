// The last clauses of goals.
ghost use Rattle.std.specs.Prelude.{◌≡◌, ◌++◌, ◌∷◌, [], if◌then◌else◌, IfOk, OnOk, map};
ghost use Rattle.l2_gates.specs.Gates.{literal_of, literals_of, F, same};
ghost use Rattle.l2_ssa.specs.Views.{goal_of, events_of};
ghost use Rattle.l2_ssa_points.specs.Goals.{goals_of_rows, check_goals};
ghost use Rattle.l2_goals.specs.Formulas.{literals, same_goal, rows_of_kind, rows_of_kinds, rank_of_kind, ranks_of_kinds, goals_of_kinds};
ghost use Rattle.l2_goals.specs.Kept.{endings};

use crate::numbering::number;
use l2_blast::Words;
use l2_circuits::falsity;
use l2_cnf::{ClauseList, Lit};
use l2_ssa::{Event, Goal, Kind};
use std::alloc::{AllocError, Global};

fn same_goal(a: Goal, b: Goal) -> bool
    ensures { result ≡ same_goal (goal_of a) (goal_of b) }
{
    match (a, b) {
        (Goal::Row(l, i), Goal::Row(m, j)) => l == m && i == j,
        (Goal::Row(_, _), Goal::Rank(_)) => false,
        (Goal::Row(_, _), Goal::Check(_)) => false,
        (Goal::Rank(_), Goal::Row(_, _)) => false,
        (Goal::Rank(l), Goal::Rank(m)) => l == m,
        (Goal::Rank(_), Goal::Check(_)) => false,
        (Goal::Check(_), Goal::Row(_, _)) => false,
        (Goal::Check(_), Goal::Rank(_)) => false,
        (Goal::Check(c), Goal::Check(d)) => c == d,
    }
}

fn is_false(literal: Lit) -> bool
    ensures { result ≡ same (literal_of literal) F }
{
    literal.code() == falsity().code()
}

/// The literals of a goal's events, without the false one.
fn clause_of(
    alloc: Global,
    words: &Words,
    events: &[Event],
    goal: Goal,
) -> Result<Vec<Lit>, AllocError>
    ensures { IfOk result (λ clause. literals_of clause.items ≡ literals words.now (goal_of goal) (events_of events.now)) }
{
    let mut clause = Vec::new(alloc);
    for event in events {
        if same_goal(event.goal, goal) {
            let literal = words.literal(event.literal);
            if !is_false(literal) {
                clause.push(literal)?;
            }
        }
    }
    Ok(clause)
}

/// Equations whose goals get their last clauses.
#[derive(Clone, Copy)]
pub struct Endings<'a> {
    pub words: &'a Words,
    pub events: &'a [Event],
}

impl<'a> Endings<'a> {
    fn push(self, alloc: Global, last: &mut ClauseList, goal: Goal) -> Result<(), AllocError>
        ensures { OnOk result (map literals_of last.new ≡ map literals_of last.old ++ literals self.entry.words.now (goal_of goal) (events_of self.entry.events.now) ∷ []) }
    {
        let clause = clause_of(alloc, self.words, self.events, goal)?;
        last.push(&clause)
    }

    fn push_rows(
        self,
        alloc: Global,
        last: &mut ClauseList,
        of_loop: u32,
        rows: u32,
    ) -> Result<(), AllocError>
        ensures { OnOk result (map literals_of last.new ≡ map literals_of last.old ++ endings self.entry (goals_of_rows of_loop 1 rows)) }
    {
        for i in 0..rows as usize {
            let row = number(i)?;
            self.push(alloc, last, Goal::Row(of_loop, row))?;
        }
        Ok(())
    }

    fn push_loop(
        self,
        alloc: Global,
        last: &mut ClauseList,
        of_loop: u32,
        kind: Kind,
    ) -> Result<(), AllocError>
        ensures { OnOk result (map literals_of last.new ≡ map literals_of last.old ++ endings self.entry (rows_of_kind of_loop kind)) }
    {
        match kind {
            Kind::Bottom => self.push(alloc, last, Goal::Row(of_loop, 0)),
            Kind::Plain => Ok(()),
            Kind::Rows(rows) => self.push_rows(alloc, last, of_loop, rows),
        }
    }

    fn push_all_rows(
        self,
        alloc: Global,
        last: &mut ClauseList,
        kinds: &[Kind],
    ) -> Result<(), AllocError>
        ensures { OnOk result (map literals_of last.new ≡ map literals_of last.old ++ endings self.entry (rows_of_kinds 1 kinds.now)) }
    {
        for i in 0..kinds.len() {
            let of_loop = number(i)?;
            self.push_loop(alloc, last, of_loop, kinds[i])?;
        }
        Ok(())
    }

    fn push_rank(
        self,
        alloc: Global,
        last: &mut ClauseList,
        of_loop: u32,
        kind: Kind,
    ) -> Result<(), AllocError>
        ensures { OnOk result (map literals_of last.new ≡ map literals_of last.old ++ endings self.entry (rank_of_kind of_loop kind)) }
    {
        match kind {
            Kind::Bottom => Ok(()),
            Kind::Plain => Ok(()),
            Kind::Rows(_) => self.push(alloc, last, Goal::Rank(of_loop)),
        }
    }

    fn push_ranks(
        self,
        alloc: Global,
        last: &mut ClauseList,
        kinds: &[Kind],
    ) -> Result<(), AllocError>
        ensures { OnOk result (map literals_of last.new ≡ map literals_of last.old ++ endings self.entry (ranks_of_kinds 1 kinds.now)) }
    {
        for i in 0..kinds.len() {
            let of_loop = number(i)?;
            self.push_rank(alloc, last, of_loop, kinds[i])?;
        }
        Ok(())
    }

    fn push_checks(
        self,
        alloc: Global,
        last: &mut ClauseList,
        checks: usize,
    ) -> Result<(), AllocError>
        ensures { OnOk result (map literals_of last.new ≡ map literals_of last.old ++ endings self.entry (check_goals 1 checks)) }
    {
        for i in 0..checks {
            let check = number(i)?;
            self.push(alloc, last, Goal::Check(check))?;
        }
        Ok(())
    }

    /// The last clause of each goal of loops of these kinds, and of rankings or of so many checks.
    pub fn last_clauses(
        self,
        alloc: Global,
        checks: usize,
        kinds: &[Kind],
        ranks: bool,
    ) -> Result<ClauseList, AllocError>
        ensures { IfOk result (λ last. map literals_of last ≡ endings self.entry (goals_of_kinds checks kinds.now ranks)) }
    {
        let mut last = ClauseList::new(alloc);
        self.push_all_rows(alloc, &mut last, kinds)?;
        if ranks {
            self.push_ranks(alloc, &mut last, kinds)?;
        } else {
            self.push_checks(alloc, &mut last, checks)?;
        }
        Ok(last)
    }
}
