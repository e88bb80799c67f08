// A checker that begins anew over the same clauses.
ghost use Rattle.std.specs.Prelude.{IfOk};
ghost use Rattle.l2_cnf.specs.Logic.{AllWithin};

use l2_cnf::{ClauseList, Lit};
use l2_rup::Checker;
use std::alloc::{AllocError, Global};

/// Two clauses, one with a literal that stands twice.
fn base(alloc: Global) -> Result<ClauseList, AllocError>
    ensures { IfOk result (λ list. AllWithin 2 list) }
{
    let (one, two) = (Lit::new(1, true), Lit::new(2, true));
    let mut list = ClauseList::new(alloc);
    list.push(&[one, two, two])?;
    list.push(&[one.negated(), two])?;
    Ok(list)
}

/// The clause 2 is derived, and then, with a last clause that denies it, the empty clause.
pub fn begun(alloc: Global) -> Result<String, AllocError> {
    let base = base(alloc)?;
    let two = Lit::new(2, true);
    let mut checker = Checker::without_last(alloc, &base, 2, 1, 1)?;
    let repeated = checker.step(3, &[two], &[1, 1, 2]).is_ok();
    if repeated {
        return String::from_str(alloc, "a step whose hint is repeated is accepted");
    }
    let first = checker.step(3, &[two], &[1, 2]).is_ok();
    let open = checker.closed();
    checker.restart(&[two.negated(), two.negated()], 2, 1)?;
    let second = checker.step(4, &[two], &[1, 2]).is_ok();
    if !second {
        return String::from_str(alloc, "the second step is refused");
    }
    let third = checker.step(5, &[], &[3, 4]).is_ok();
    let closed = checker.closed();
    format!(in alloc; "{first}, closed: {open}; {second} and {third}, closed: {closed}")
}
