//! Answers small formulas, so that each call of the solver is seen to come to its answer.
#![tactic(auto)]

mod logged;

ghost use Rattle.std.specs.Prelude.{◌≡◌, Bool, true, false, IfOk};

use crate::logged::{clashed, derived};
use l2_cdcl::{Answer, Solver};
use l2_cnf::Lit;
use std::alloc::{AllocError, Global};
use std::process::ExitCode;

/// The literals of some whole numbers.
fn literals(alloc: Global, numbers: &[i64]) -> Result<Vec<Lit>, AllocError> {
    let mut clause = Vec::new(alloc);
    for number in numbers {
        let var = number.unsigned_abs();
        if var >= 1 && var < 1_000_000 {
            clause.push(Lit::new(var, *number > 0))?;
        }
    }
    Ok(clause)
}

fn add(alloc: Global, solver: &mut Solver, numbers: &[i64]) -> Result<(), AllocError>
    requires { solver.old.logged ≡ false }
    ensures { solver.new.logged ≡ false }
{
    let clause = literals(alloc, numbers)?;
    solver.add(&clause)
}

/// Adds clauses, each ended by a 0.
fn add_all(alloc: Global, solver: &mut Solver, numbers: &[i64]) -> Result<(), AllocError>
    requires { solver.old.logged ≡ false }
    ensures { solver.new.logged ≡ false }
{
    for clause in numbers.split_inclusive(|n| *n == 0) {
        add(alloc, solver, clause)?;
    }
    Ok(())
}

/// `sat`, or `unsat` and the size of the core.
fn ask(alloc: Global, solver: &mut Solver, assumptions: &[i64]) -> Result<String, AllocError>
    ensures { solver.new.logged ≡ solver.old.logged }
{
    let assumed = literals(alloc, assumptions)?;
    match solver.solve(&assumed)? {
        Answer::Sat(_) => String::from_str(alloc, "sat"),
        Answer::Unsat(core) => {
            let size = core.literals().len();
            format!(in alloc; "unsat {size}")
        }
    }
}

/// What a solver answers, asked twice.
fn twice(alloc: Global, solver: &mut Solver, assumptions: &[i64]) -> Result<String, AllocError> {
    let first = ask(alloc, solver, assumptions)?;
    let second = ask(alloc, solver, assumptions)?;
    format!(in alloc; "{first}, {second}")
}

/// What a new solver answers, asked twice.
fn trial(alloc: Global, clauses: &[i64], assumptions: &[i64]) -> Result<String, AllocError> {
    let mut solver = Solver::new(alloc);
    add_all(alloc, &mut solver, clauses)?;
    twice(alloc, &mut solver, assumptions)
}

/// The negated literal.
fn opposite(literal: i64) -> i64 {
    literal.wrapping_neg()
}

/// The number after this one, by a rule under which numbers look like chance.
fn next(seed: u64) -> u64 {
    seed.wrapping_mul(1_103_515_245).wrapping_add(12345) % 2_147_483_648
}

/// A literal of two hundred variables.
fn literal_of(seed: u64) -> i64 {
    let var = (seed / 8 % 200) as i64 + 1;
    if seed / 4096 % 2 == 0 {
        var
    } else {
        opposite(var)
    }
}

/// A literal that is true where the even variables are.
fn true_literal_of(seed: u64) -> i64 {
    let var = (seed / 8 % 200) as i64 + 1;
    if var % 2 == 0 { var } else { opposite(var) }
}

/// Eight hundred clauses of three literals over two hundred variables that can be met together.
fn planted(alloc: Global) -> Result<String, AllocError> {
    let mut solver = Solver::new(alloc);
    let mut seed = 1;
    for _ in 0..800u16 {
        let (first, second) = (next(seed), next(next(seed)));
        seed = next(second);
        let clause = [literal_of(first), true_literal_of(second), literal_of(seed)];
        add(alloc, &mut solver, &clause)?;
    }
    ask(alloc, &mut solver, &[])
}

/// Two hundred variables, each other than the one before it.
fn add_chain(alloc: Global, solver: &mut Solver) -> Result<(), AllocError>
    requires { solver.old.logged ≡ false }
    ensures { solver.new.logged ≡ false }
{
    for v in 1..200u8 {
        let (this, next) = (i64::from(v), i64::from(v) + 1);
        add(alloc, solver, &[this, next])?;
        add(alloc, solver, &[opposite(this), opposite(next)])?;
    }
    Ok(())
}

/// Asks for the last variable, and then demands it.
fn demand(alloc: Global, solver: &mut Solver) -> Result<String, AllocError>
    requires { solver.old.logged ≡ false }
{
    let free = ask(alloc, solver, &[1])?;
    let both = ask(alloc, solver, &[1, 200])?;
    add(alloc, solver, &[200])?;
    let demanded = ask(alloc, solver, &[1])?;
    format!(in alloc; "{free}, {both}, {demanded}")
}

fn chain(alloc: Global) -> Result<String, AllocError> {
    let mut solver = Solver::new(alloc);
    add_chain(alloc, &mut solver)?;
    demand(alloc, &mut solver)
}

fn report(rt: &HostRuntime, name: &str, answer: Result<String, AllocError>) -> bool {
    match answer {
        Ok(text) => println!(rt; "{name}: {text}").is_ok(),
        Err(_) => false,
    }
}

fn formulas(rt: &HostRuntime, alloc: Global) -> bool {
    report(rt, "no clause", trial(alloc, &[], &[]))
        && report(rt, "the empty clause", trial(alloc, &[0], &[]))
        && report(rt, "a unit clash", trial(alloc, &[1, 0, -1, 0], &[]))
        && report(rt, "one literal thrice", trial(alloc, &[1, 1, 1, 0], &[1]))
        && report(rt, "a tautology", trial(alloc, &[1, -1, 0], &[-1]))
        && report(
            rt,
            "all of two variables",
            trial(alloc, &[1, 2, 0, -1, 2, 0, 1, -2, 0, -1, -2, 0], &[]),
        )
}

fn assumed(rt: &HostRuntime, alloc: Global) -> bool {
    report(rt, "assumptions that clash", trial(alloc, &[], &[3, -3]))
        && report(
            rt,
            "a clause that assumptions break",
            trial(alloc, &[-1, -2, 0], &[5, 1, 2, 7]),
        )
        && report(
            rt,
            "a clause that they leave open",
            trial(alloc, &[-1, -2, 0], &[1]),
        )
        && report(rt, "five pigeons in four holes", derived(alloc))
        && report(rt, "three clauses that clash", clashed(alloc))
        && report(rt, "a chain of two hundred", chain(alloc))
        && report(rt, "eight hundred clauses that can be met", planted(alloc))
}

fn main(rt: HostRuntime) -> ExitCode {
    let alloc = rt.alloc();
    ExitCode::from(u8::from(!(formulas(&rt, alloc) && assumed(&rt, alloc))))
}
