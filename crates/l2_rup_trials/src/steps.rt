// Single steps.
ghost use Rattle.std.specs.Prelude.{IfOk};
ghost use Rattle.l2_cnf.specs.Logic.{AllWithin};

use l2_cnf::{ClauseList, Lit};
use l2_rup::{Checker, StepError};
use std::alloc::{AllocError, Global};

/// The clause 1.
fn one(alloc: Global) -> Result<ClauseList, AllocError>
    ensures { IfOk result (λ list. AllWithin 2 list) }
{
    let mut list = ClauseList::new(alloc);
    list.push(&[Lit::new(1, true)])?;
    Ok(list)
}

/// What a step of at most four literals comes to.
pub fn step(
    alloc: Global,
    number: u64,
    clause: &[Lit],
    hints: &[u64],
) -> Result<String, AllocError> {
    let base = one(alloc)?;
    let mut checker = Checker::new(alloc, &base, &[], 2, 1, 4)?;
    if clause.len() > 4 {
        return String::from_str(alloc, "too long");
    }
    let verdict = match checker.step(number, clause, hints) {
        Ok(()) => "accepted",
        Err(StepError::BadStep) => match checker.step(3, &[], &[2]) {
            Ok(()) => "refused",
            Err(StepError::BadStep) => "refused twice",
        },
    };
    let closed = checker.closed();
    format!(in alloc; "{verdict}, closed: {closed}")
}
