//! Makes each gate on constants and on variables, so that each is seen to come to its answer.
#![tactic(auto)]

use l2_cnf::{ClauseList, Lit};
use l2_gates::Gates;
use std::alloc::{AllocError, Global};
use std::process::ExitCode;

/// A literal as a whole number.
fn number(literal: Lit) -> i64 {
    let var = literal.var() as i64;
    if literal.is_positive() { var } else { 0 - var }
}

/// What the gates give on two literals and a third.
fn row(gates: &mut Gates, c: Lit, a: Lit, b: Lit) -> Result<[i64; 4], AllocError> {
    let both = gates.and(a, b)?;
    let either = gates.or(a, b)?;
    let differ = gates.xor(a, b)?;
    let chosen = gates.mux(c, a, b)?;
    Ok([number(both), number(either), number(differ), number(chosen)])
}

fn print_row(rt: &HostRuntime, name: &str, row: Result<[i64; 4], AllocError>) -> bool {
    match row {
        Ok(shown) => {
            let both = shown[0];
            let either = shown[1];
            let differ = shown[2];
            let chosen = shown[3];
            println!(rt; "{name}: and {both}, or {either}, xor {differ}, mux {chosen}").is_ok()
        }
        Err(_) => false,
    }
}

/// The gates, and three variables of them.
struct Table {
    gates: Gates,
    x: Lit,
    y: Lit,
    z: Lit,
}

fn make_table(alloc: Global) -> Result<Table, AllocError> {
    let mut gates = Gates::new(alloc)?;
    let x = gates.fresh()?;
    let y = gates.fresh()?;
    let z = gates.fresh()?;
    Ok(Table { gates, x, y, z })
}

fn print_clause(rt: &HostRuntime, clause: &[Lit]) -> bool {
    for literal in clause {
        let n = number(*literal);
        if print!(rt; "{n} ").is_err() {
            return false;
        }
    }
    println!(rt; "0").is_ok()
}

fn print_clauses(rt: &HostRuntime, clauses: &ClauseList) -> bool {
    for i in 0..clauses.len() {
        if !print_clause(rt, clauses.clause(i)) {
            return false;
        }
    }
    true
}

fn all(rt: &HostRuntime, table: Table) -> bool {
    let Table { mut gates, x, y, z } = table;
    let yes = Lit::new(1, true);
    let no = Lit::new(1, false);
    let shown = print_row(rt, "constants", row(&mut gates, yes, yes, no))
        && print_row(rt, "a constant and a variable", row(&mut gates, z, x, yes))
        && print_row(rt, "a variable twice", row(&mut gates, z, x, x))
        && print_row(
            rt,
            "a variable and its negation",
            row(&mut gates, x, x, x.negated()),
        )
        && print_row(rt, "two variables", row(&mut gates, z, x, y));
    let variables = gates.variables();
    let clauses = gates.into_clauses();
    shown && println!(rt; "{variables} variables").is_ok() && print_clauses(rt, &clauses)
}

fn main(rt: HostRuntime) -> ExitCode {
    match make_table(rt.alloc()) {
        Ok(table) => ExitCode::from(u8::from(!all(&rt, table))),
        Err(_) => ExitCode::from(1),
    }
}
