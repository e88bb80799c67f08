ghost use Rattle.std.specs.Prelude.{◌≡◌, IfOk, length};
ghost use Rattle.l2_cnf.specs.Logic.{AllWithin};

use l2_cnf::{ClauseList, Lines, Lit};
use l2_derivations::{GoalError, NoGate, Problem, check_goals};
use std::alloc::{AllocError, Global};
use std::marker::Sync;
use std::thread::Threads;

/// The clause of the literal 1 alone.
fn one(alloc: Global) -> Result<ClauseList, AllocError>
    ensures { IfOk result (λ list. AllWithin 1 list) }
{
    let mut list = ClauseList::new(alloc);
    list.push(&[Lit::new(1, true)])?;
    Ok(list)
}

/// So many empty clauses.
fn empty(alloc: Global, count: usize) -> Result<ClauseList, AllocError>
    ensures within { IfOk result (λ list. AllWithin 1 list) }
    ensures count { IfOk result (λ list. length list ≡ count) }
{
    let mut list = ClauseList::new(alloc);
    for _ in 0..count {
        list.push(&[])?;
    }
    Ok(list)
}

/// What so many jobs say of these goals, each over the clauses `1` and the empty one.
fn said(checked: Result<(), GoalError>, alloc: Global) -> Result<String, AllocError> {
    match checked {
        Ok(()) => String::from_str(alloc, "refuted"),
        Err(GoalError::BadStep { goal, step }) => format!(in alloc; "bad step {goal} {step}"),
        Err(GoalError::Unclosed { goal }) => format!(in alloc; "unclosed {goal}"),
        Err(GoalError::NoMemory) => String::from_str(alloc, "no memory"),
    }
}

/// What 1, 2, 3 and 64 jobs say of the steps of a certificate.
pub fn answers<R: Threads + Sync>(
    rt: &R,
    alloc: Global,
    steps: &[Lines],
) -> Result<String, AllocError> {
    let base = one(alloc)?;
    let last = empty(alloc, steps.len())?;
    let all = Problem {
        base: &base,
        variables: 1,
        last: &last,
        steps,
    };
    let a = said(check_goals(rt, alloc, all, 1, &NoGate), alloc)?;
    let b = said(check_goals(rt, alloc, all, 2, &NoGate), alloc)?;
    let c = said(check_goals(rt, alloc, all, 3, &NoGate), alloc)?;
    let d = said(check_goals(rt, alloc, all, 64, &NoGate), alloc)?;
    format!(in alloc; "{a}, {b}, {c}, {d}")
}
