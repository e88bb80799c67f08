//! Reads texts as formulas and prints what they are, or the line at which they are refused.
#![tactic(auto)]

ghost use Rattle.std.specs.Prelude.{◌<◌, length};

use l2_cnf::ClauseList;
use l2_dimacs::{DimacsError, read};
use std::alloc::{AllocError, Global};
use std::process::ExitCode;

fn push_clause(
    alloc: Global,
    text: &mut String,
    list: &ClauseList,
    i: u64,
) -> Result<(), AllocError>
    requires { i < length list.now }
{
    for literal in list.clause(i) {
        let sign = if literal.is_positive() { "" } else { "-" };
        let var = literal.var();
        text.push_str(format!(in alloc; " {sign}{var}")?.as_str())?;
    }
    text.push_str(" 0")
}

/// The greatest variable and the clauses of a text, or the line at which it is refused.
fn trial(alloc: Global, text: &str) -> Result<String, AllocError> {
    match read(alloc, text.as_bytes()) {
        Ok(formula) => {
            let variables = formula.variables;
            let mut line = format!(in alloc; "{variables}:")?;
            for i in 0..formula.clauses.len() {
                push_clause(alloc, &mut line, &formula.clauses, i)?;
            }
            Ok(line)
        }
        Err(DimacsError::BadLine { line }) => format!(in alloc; "line {line}"),
        Err(DimacsError::NoMemory) => Err(AllocError),
    }
}

fn show(rt: &HostRuntime, alloc: Global, text: &str) -> bool {
    match trial(alloc, text) {
        Ok(line) => println!(rt; "{line}").is_ok(),
        Err(_) => false,
    }
}

/// Texts of the profile.
fn formulas(rt: &HostRuntime, alloc: Global) -> bool {
    show(rt, alloc, "p cnf 2 2\n1 0\n-1 -2 0\n")
        && show(rt, alloc, "p cnf 0 0")
        && show(rt, alloc, "p cnf 0 1\n0")
        && show(rt, alloc, "p cnf 1 1\n1 0\n%\n0\n")
        && show(
            rt,
            alloc,
            "c a comment\n \t p cnf 003 02 -1 2\n02\nc 5 0\n 0 3 -3 0\r\n\r\n",
        )
        && show(rt, alloc, "p cnf 10000000 1\n-10000000 0")
}

/// Texts that are refused.
fn refusals(rt: &HostRuntime, alloc: Global) -> bool {
    show(rt, alloc, "p cnf 1 1\n2 0\n")
        && show(rt, alloc, "")
        && show(rt, alloc, "\n\nq")
        && show(rt, alloc, "p\n cnf 1 1\n1 0\n")
        && show(rt, alloc, "p cnf 10000001 0")
        && show(rt, alloc, "p cnf 1 0000000000000000001\n1 0")
        && show(rt, alloc, "p cnf 1 1\n1\n\n")
        && show(rt, alloc, "p cnf 1 1\n1 00\n")
        && show(rt, alloc, "p cnf 1 1\n1 -0\n")
        && show(rt, alloc, "p cnf 1 1\n1 0\n\n1 0\n")
        && show(rt, alloc, "p cnf 1 2\n1 0\n%\n")
        && show(rt, alloc, "p cnf 1 1\n1 0\n%1\n")
}

fn main(rt: HostRuntime) -> ExitCode {
    let alloc = rt.alloc();
    ExitCode::from(u8::from(!(formulas(&rt, alloc) && refusals(&rt, alloc))))
}
