// Lists of clauses and of steps, and values of variables.
use l2_cnf::{Assignment, ClauseList, Lines, Lit, satisfies};
use std::alloc::{AllocError, Global};

/// Two clauses, one of them empty.
pub fn clauses(alloc: Global) -> Result<String, AllocError> {
    let mut list = ClauseList::new(alloc);
    list.push(&[Lit::new(1, true), Lit::new(2, false)])?;
    list.push(&[])?;
    let mut text = String::from_str(alloc, "clauses:")?;
    for i in 0..list.len() {
        let size = list.clause(i).len();
        text.push_str(format!(in alloc; " {size}")?.as_str())?;
    }
    Ok(text)
}

/// Two steps.
pub fn lines(alloc: Global) -> Result<String, AllocError> {
    let mut list = Lines::new(alloc);
    list.push(7, &[], &[1, 2])?;
    list.push(9, &[Lit::new(1, true)], &[])?;
    let mut text = String::from_str(alloc, "steps:")?;
    for i in 0..list.len() {
        let (number, size, hints) = (list.number(i), list.clause(i).len(), list.hints(i).len());
        text.push_str(format!(in alloc; " {number} {size} {hints};")?.as_str())?;
    }
    Ok(text)
}

/// Whether the clause of 1 and not 2 is satisfied, by the values that the variables take one after another.
pub fn values(alloc: Global) -> Result<String, AllocError> {
    let mut list = ClauseList::new(alloc);
    let mut a = Assignment::new(alloc, 2)?;
    let empty = satisfies(&a, &list);
    list.push(&[Lit::new(1, true), Lit::new(2, false)])?;
    a.set(1, false);
    a.set(2, true);
    let broken = satisfies(&a, &list);
    a.set(2, false);
    let met = satisfies(&a, &list);
    format!(in alloc; "satisfied: {empty}, {broken}, {met}")
}
