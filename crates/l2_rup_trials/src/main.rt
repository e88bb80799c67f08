//! Checks the steps on its input, and shows lists of clauses, so that each call is seen to come to its answer.
//!
//! A line is a step over the clause 1 and the empty clause: its number, its literals and its hints, parted by `;`. Behind a step that
//! is refused the empty clause is tried, which the second clause gives.
#![tactic(auto)]

mod anew;
mod lists;
mod numbers;
mod steps;

use std::alloc::{AllocError, Global};
use std::io;

/// What a line's step comes to.
fn answer(alloc: Global, line: &str) -> Result<String, AllocError> {
    if let Some((number, rest)) = line.split_once(';') {
        if let Some((clause, hints)) = rest.split_once(';') {
            let number = number.parse().unwrap_or(0);
            let clause = numbers::literals(alloc, clause)?;
            let hints = numbers::hints(alloc, hints)?;
            return steps::step(alloc, number, &clause, &hints);
        }
    }
    String::from_str(alloc, "no step")
}

fn main(rt: HostRuntime) -> io::Result<()> {
    for line in rt.lines(rt.alloc()) {
        let said = answer(rt.alloc(), line?.as_str())?;
        println!(rt; "{said}")?;
    }
    let begun = anew::begun(rt.alloc())?;
    println!(rt; "{begun}")?;
    let (clauses, lines) = (lists::clauses(rt.alloc())?, lists::lines(rt.alloc())?);
    println!(rt; "{clauses}")?;
    println!(rt; "{lines}")?;
    let values = lists::values(rt.alloc())?;
    println!(rt; "{values}")?;
    Ok(())
}
