ghost use Rattle.std.specs.Prelude.{◌≡◌, ◌≤◌, ◌∷◌, [], ℕ, ℤ, List, IfOk, IfSome, OnOk, IsErrOf, length};
ghost use Rattle.std.specs.List.{All};
ghost use Rattle.l2_cnf.specs.Lines.{step_at};
ghost use Rattle.l2_cnf.specs.Steps.{Step};
ghost use Rattle.l2_rup.specs.Checked.{formula_of, fresh};
ghost use Rattle.l2_derivations.specs.Goals.{FailsAt, IsOpen, IsRefuted};
ghost use Rattle.l2_derivations.specs.Sizes.{literals_of};

use l2_cnf::Lines;
use l2_rup::Checker;
use std::alloc::AllocError;
use thiserror::Error;

/// The first goal that isn't refuted by its steps.
#[derive(Clone, Copy, Debug, Drop, PartialEq, Eq, Error)]
pub enum GoalError {
    /// This step of this goal isn't accepted. Both are counted from 1.
    #[error("step {step} of goal {goal} isn't accepted")]
    BadStep { goal: u64, step: u64 },
    /// The last step of this goal isn't the empty clause.
    #[error("goal {goal} isn't closed")]
    Unclosed { goal: u64 },
    #[error("out of memory")]
    NoMemory,
}

/// What is wrong with a goal.
#[derive(Clone, Copy, Debug, PartialEq, Eq)]
pub(crate) enum Fault {
    /// A step, counted from 1.
    Step(u64),
    Open,
}

/// How many literals the clauses of some steps have. More than memory can hold are none.
pub(crate) fn literals_in(steps: &Lines) -> Option<u64>
    ensures { IfSome result (λ n. n ≡ literals_of steps.now) }
{
    let mut size = 0u64;
    for i in 0..steps.len() {
        size = size.checked_add(steps.clause(i).len() as u64)?;
    }
    Some(size)
}

/// Checks the steps of a goal by a checker that has room for them.
pub(crate) fn check_steps(checker: &mut Checker<'_>, steps: &Lines) -> Result<(), Fault>
    requires { checker.old ≡ fresh checker.old.base checker.old.last checker.old.variables (length steps.now) (literals_of steps.now) }
    ensures ok { OnOk result (IsRefuted (formula_of checker.old) checker.old.variables steps.now) }
    ensures step { (s : ℕ) → IsErrOf result (Fault.Step s) → FailsAt (formula_of checker.old) checker.old.variables steps.now s }
    ensures open_ { IsErrOf result Fault.Open → IsOpen (formula_of checker.old) checker.old.variables steps.now }
    ensures base { checker.new.base ≡ checker.old.base }
    ensures variables { checker.new.variables ≡ checker.old.variables }
{
    for i in 0..steps.len() {
        if checker
            .step(steps.number(i), steps.clause(i), steps.hints(i))
            .is_err()
        {
            return Err(Fault::Step(i + 1));
        }
    }
    if checker.closed() {
        Ok(())
    } else {
        Err(Fault::Open)
    }
}
