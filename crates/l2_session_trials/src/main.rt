//! Asks a session about clauses that grow, so that each of its calls is seen to come to its answer.
#![tactic(auto)]

use l2_cdcl::Answer;
use l2_cnf::{ClauseList, Lit};
use l2_session::Session;
use std::alloc::{AllocError, Global};
use std::process::ExitCode;

/// The literals of some whole numbers.
fn literals(alloc: Global, numbers: &[i64]) -> Result<Vec<Lit>, AllocError> {
    let mut clause = Vec::new(alloc);
    for number in numbers {
        let var = number.unsigned_abs();
        if var >= 1 && var < 1_000_000 {
            clause.push(Lit::new(var, *number > 0))?;
        }
    }
    Ok(clause)
}

/// Clauses, each ended by a 0.
fn clauses(alloc: Global, numbers: &[i64]) -> Result<ClauseList, AllocError> {
    let mut list = ClauseList::new(alloc);
    for clause in numbers.split_inclusive(|n| *n == 0) {
        let clause = literals(alloc, clause)?;
        list.push(&clause)?;
    }
    Ok(list)
}

fn extend(alloc: Global, session: &mut Session, numbers: &[i64]) -> Result<(), AllocError> {
    let list = clauses(alloc, numbers)?;
    session.extend(&list)
}

/// The value of a variable as `true` or `false`, or `free`.
fn shown(value: Option<bool>) -> &'static str {
    match value {
        Some(true) => "true",
        Some(false) => "false",
        None => "free",
    }
}

/// `sat` with the value of variable 1, or `unsat` with the size of the core.
fn ask(alloc: Global, session: &mut Session, assumptions: &[i64]) -> Result<String, AllocError> {
    let assumed = literals(alloc, assumptions)?;
    match session.ask(&assumed)? {
        Answer::Sat(values) => {
            let first = shown(session.value(&values, Lit::new(1, true)));
            format!(in alloc; "sat {first}")
        }
        Answer::Unsat(core) => {
            let size = core.literals().len();
            format!(in alloc; "unsat {size}")
        }
    }
}

/// The clauses of the session, those learnt, the literals of the last one learnt, and the questions.
fn state(alloc: Global, session: &Session) -> Result<String, AllocError> {
    let (len, learnt, asked) = (session.len(), session.learnt_len(), session.asked());
    let last = if learnt > 0 {
        session.learnt(learnt - 1).len()
    } else {
        0
    };
    format!(in alloc; "{len} clauses, {learnt} learnt, {last} in the last, {asked} asked")
}

/// Five variables, each the same as the next one: they can't differ.
fn same(alloc: Global, session: &mut Session) -> Result<String, AllocError> {
    let free = ask(alloc, session, &[1])?;
    extend(
        alloc,
        session,
        &[
            -1, 2, 0, -2, 3, 0, -3, 4, 0, -4, 5, 0, 1, -2, 0, 2, -3, 0, 3, -4, 0, 4, -5, 0,
        ],
    )?;
    let apart = ask(alloc, session, &[1, -5])?;
    let again = ask(alloc, session, &[1, -5])?;
    format!(in alloc; "{free}, {apart}, {again}")
}

/// The last one is demanded, and the first denied.
fn demand(alloc: Global, session: &mut Session) -> Result<String, AllocError> {
    extend(alloc, session, &[5, 0])?;
    let demanded = ask(alloc, session, &[])?;
    let denied = ask(alloc, session, &[-1])?;
    format!(in alloc; "{demanded}, {denied}")
}

/// The first one is denied for good.
fn deny(alloc: Global, session: &mut Session) -> Result<String, AllocError> {
    extend(alloc, session, &[-1, 0])?;
    let none = ask(alloc, session, &[])?;
    let still = ask(alloc, session, &[])?;
    format!(in alloc; "{none}, {still}")
}

/// All clauses of three of the variables with the first one in it.
fn demand_first(alloc: Global, session: &mut Session) -> Result<String, AllocError> {
    extend(
        alloc,
        session,
        &[1, 2, 3, 0, 1, 2, -3, 0, 1, -2, 3, 0, 1, -2, -3, 0],
    )?;
    let denied = ask(alloc, session, &[-1])?;
    let state = state(alloc, session)?;
    format!(in alloc; "{denied}, {state}")
}

/// The same question once more, and one without assumptions: what was learnt is kept.
fn again(alloc: Global, session: &mut Session) -> Result<String, AllocError> {
    let denied = ask(alloc, session, &[-1])?;
    let met = ask(alloc, session, &[])?;
    let state = state(alloc, session)?;
    format!(in alloc; "{denied}, {met}, {state}")
}

fn report(rt: &HostRuntime, answer: Result<String, AllocError>) -> bool {
    match answer {
        Ok(text) => println!(rt; "{text}").is_ok(),
        Err(_) => false,
    }
}

fn growing(rt: &HostRuntime, alloc: Global) -> bool {
    let mut session = Session::new(alloc);
    report(rt, same(alloc, &mut session))
        && report(rt, demand(alloc, &mut session))
        && report(rt, deny(alloc, &mut session))
        && report(rt, state(alloc, &session))
}

fn learning(rt: &HostRuntime, alloc: Global) -> bool {
    let mut session = Session::new(alloc);
    report(rt, demand_first(alloc, &mut session)) && report(rt, again(alloc, &mut session))
}

fn main(rt: HostRuntime) -> ExitCode {
    let alloc = rt.alloc();
    ExitCode::from(u8::from(!(growing(&rt, alloc) && learning(&rt, alloc))))
}
