ghost use Rattle.std.specs.Prelude.{◌≡◌, ◌≤◌, ◌<◌, ◌++◌, ◌∷◌, [], ℕ, OnOk, IsErrOf, length};
ghost use Rattle.l2_cnf.specs.Logic.{AllWithin, IsWithin};
ghost use Rattle.l2_derivations.specs.Goals.{AllHold, BreaksAt, FailsAt, IsOpen, IsRefuted, StaysOpen};
ghost use Rattle.l2_derivations.specs.Problems.{Fits, goals_of};

use crate::goal::{Fault, GoalError, check_steps, literals_in};
use l2_cnf::{ClauseList, Lines, Lit};
use l2_rup::Checker;
use std::alloc::Global;

/// What each goal passes before its first step. A gate decides nothing.
pub trait Gate {
    /// Lets the goal of this number, counted from 1, go by.
    fn pass(&self, goal: u64);
}

/// A gate that does nothing.
#[derive(Clone, Copy, Debug)]
pub struct NoGate;

impl Gate for NoGate {
    fn pass(&self, _goal: u64) {}
}

/// Goals that are to be refuted: the formula of each is the base and its last clause.
#[derive(Clone, Copy)]
pub struct Problem<'a> {
    pub base: &'a ClauseList,
    /// The greatest variable that a clause may have.
    pub variables: u64,
    /// For each goal its last clause.
    pub last: &'a ClauseList,
    /// For each goal its steps.
    pub steps: &'a [Lines],
}

/// Checks the goal of this number, counted from 1, by a checker of the base.
fn check_one(
    checker: &mut Checker<'_>,
    last: &[Lit],
    steps: &Lines,
    number: u64,
) -> Result<(), GoalError>
    requires { IsWithin checker.old.variables last.now }
    ensures ok { OnOk result (IsRefuted (checker.old.base ++ last.now ∷ []) checker.old.variables steps.now) }
    ensures bad_step { (n s : ℕ) → IsErrOf result (GoalError.BadStep n s) → (n ≡ number) × FailsAt (checker.old.base ++ last.now ∷ []) checker.old.variables steps.now s }
    ensures unclosed { (n : ℕ) → IsErrOf result (GoalError.Unclosed n) → (n ≡ number) × IsOpen (checker.old.base ++ last.now ∷ []) checker.old.variables steps.now }
    ensures base { checker.new.base ≡ checker.old.base }
    ensures variables { checker.new.variables ≡ checker.old.variables }
{
    let Some(literals) = literals_in(steps) else {
        return Err(GoalError::NoMemory);
    };
    if checker.restart(last, steps.len(), literals).is_err() {
        return Err(GoalError::NoMemory);
    }
    match check_steps(checker, steps) {
        Ok(()) => Ok(()),
        Err(Fault::Step(step)) => Err(GoalError::BadStep { goal: number, step }),
        Err(Fault::Open) => Err(GoalError::Unclosed { goal: number }),
    }
}

/// Checks the goals from an index on and before another, one after another.
pub(crate) fn check_run<G: Gate>(
    alloc: Global,
    all: Problem<'_>,
    from: usize,
    to: usize,
    gate: &G,
) -> Result<(), GoalError>
    requires fits { Fits all }
    requires within { to ≤ length all.steps.now }
    ensures ok { OnOk result (AllHold (goals_of all.entry) from to) }
    ensures bad_step { (n s : ℕ) → IsErrOf result (GoalError.BadStep n s) → BreaksAt (goals_of all.entry) from to n s }
    ensures unclosed { (n : ℕ) → IsErrOf result (GoalError.Unclosed n) → StaysOpen (goals_of all.entry) from to n }
{
    let Ok(mut checker) = Checker::without_last(alloc, all.base, all.variables, 0, 0) else {
        return Err(GoalError::NoMemory);
    };
    for i in from..to {
        let number = i as u64 + 1;
        gate.pass(number);
        check_one(
            &mut checker,
            all.last.clause(i as u64),
            &all.steps[i],
            number,
        )?;
    }
    Ok(())
}
