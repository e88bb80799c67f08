ghost use Rattle.std.specs.Prelude.{◌≡◌, ◌≤◌, ◌<◌, ◌-◌, ℕ, Bool, true, false, length, IfOk};
ghost use Rattle.std.specs.Bool.{OnTrue};
ghost use Rattle.l2_cnf.specs.Logic.{IsWithin, AllWithin};

use crate::ask;
use l2_cdcl::Solver;
use l2_cnf::{ClauseList, Lines, Lit};
use l2_rup::Checker;
use std::alloc::{AllocError, Global};

const VARIABLES: u64 = 20;

/// The literal that says that this pigeon sits in this hole, or that it doesn't.
fn sits(pigeon: u8, hole: u8, positive: bool) -> Lit {
    Lit::new(4 * u64::from(pigeon) + u64::from(hole) + 1, positive)
}

/// Five pigeons in four holes: each sits in one, and two in none together.
fn pigeons(alloc: Global) -> Result<ClauseList, AllocError> {
    let mut list = ClauseList::new(alloc);
    for p in 0..5u8 {
        let one = [
            sits(p, 0, true),
            sits(p, 1, true),
            sits(p, 2, true),
            sits(p, 3, true),
        ];
        list.push(&one)?;
        for q in 0..p {
            apart(&mut list, p, q)?;
        }
    }
    Ok(list)
}

fn apart(list: &mut ClauseList, p: u8, q: u8) -> Result<(), AllocError> {
    for h in 0..4u8 {
        list.push(&[sits(p, h, false), sits(q, h, false)])?;
    }
    Ok(())
}

fn is_within(clause: &[Lit], variables: u64) -> bool
    ensures { OnTrue result (IsWithin variables clause.now) }
{
    for literal in clause {
        if literal.var() > variables {
            return false;
        }
    }
    true
}

fn are_within(list: &ClauseList, variables: u64) -> bool
    ensures { OnTrue result (AllWithin variables list.now) }
{
    for i in 0..list.len() {
        if !is_within(list.clause(i), variables) {
            return false;
        }
    }
    true
}

/// How many literals the clauses of a log have.
fn size_of(log: &Lines) -> u64 {
    let mut size = 0u64;
    for i in 0..log.len() {
        size = size.saturating_add(log.clause(i).len() as u64);
    }
    size
}

/// Whether each step of a log is accepted over these clauses, and the last is the empty clause.
fn holds(alloc: Global, list: &ClauseList, log: &Lines) -> Result<bool, AllocError>
    requires { AllWithin 20 list.now }
{
    let mut left = size_of(log);
    let mut checker = Checker::without_last(alloc, list, VARIABLES, log.len(), left)?;
    for i in 0..log.len() {
        let clause = log.clause(i);
        if clause.len() as u64 > left {
            return Ok(false);
        }
        if checker.step(log.number(i), clause, log.hints(i)).is_err() {
            return Ok(false);
        }
        left -= clause.len() as u64;
    }
    Ok(checker.closed())
}

/// What the check of a log says.
fn verdict(alloc: Global, list: &ClauseList, log: &Lines) -> Result<&'static str, AllocError> {
    if !are_within(list, VARIABLES) {
        return Ok("it has too many variables");
    }
    if holds(alloc, list, log)? {
        Ok("its log holds")
    } else {
        Ok("its log doesn't hold")
    }
}

/// A solver that keeps a log, with these clauses.
fn filled(alloc: Global, list: &ClauseList) -> Result<Solver, AllocError>
    ensures { IfOk result (λ s. s.logged ≡ true) }
{
    let mut solver = Solver::logged(alloc);
    solver.add_list(list)?;
    Ok(solver)
}

/// Five pigeons in four holes: what is answered, and what the check of the log says.
pub fn derived(alloc: Global) -> Result<String, AllocError> {
    let list = pigeons(alloc)?;
    let mut solver = filled(alloc, &list)?;
    let answer = ask(alloc, &mut solver, &[])?;
    let said = verdict(alloc, &list, solver.log())?;
    format!(in alloc; "{answer}, {said}")
}

/// Thirteen clauses, three of which can't be met together: the others aren't needed.
fn clash(alloc: Global) -> Result<ClauseList, AllocError> {
    let mut list = ClauseList::new(alloc);
    for other in 0..10u8 {
        list.push(&[Lit::new(u64::from(other) + 3, true)])?;
    }
    list.push(&[Lit::new(1, true)])?;
    list.push(&[Lit::new(1, false), Lit::new(2, true)])?;
    list.push(&[Lit::new(2, false)])?;
    Ok(list)
}

/// How many hints the last step of a log has.
fn last_hints(log: &Lines) -> usize {
    let steps = log.len();
    if steps == 0 {
        return 0;
    }
    log.hints(steps - 1).len()
}

/// How many clauses were added, what the check of the log says, and how many hints its last step has.
pub fn clashed(alloc: Global) -> Result<String, AllocError> {
    let list = clash(alloc)?;
    let mut solver = filled(alloc, &list)?;
    let answer = ask(alloc, &mut solver, &[])?;
    let added = solver.added_len();
    let log = solver.into_log();
    let said = verdict(alloc, &list, &log)?;
    let hints = last_hints(&log);
    format!(in alloc; "{answer}, {added} clauses, {said}, {hints} hints")
}
