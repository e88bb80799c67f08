//! Reads a text from each line of its input, and prints the fault by which it is refused, or what its program has.
//!
//! A line is `plain TEXT`, or `overflow TEXT` where overflow is checked.
#![tactic(auto)]

use l2_lex::tokens;
use l2_limits::TEXT_LIMIT;
use l2_parse_unit::parse;
use l2_syntax::TextFault;
use l2_types_unit::{TypedUnit, check};
use std::alloc::{AllocError, Global};
use std::io;

/// The fault by which a text is refused.
fn refused(alloc: Global, fault: TextFault) -> Result<String, AllocError> {
    match fault {
        TextFault::NoMemory => String::from_str(alloc, "no memory"),
        TextFault::At(refusal) => {
            let (line, col) = (refusal.place.line, refusal.place.col);
            let rule = refusal.rule.name();
            format!(in alloc; "{line}:{col} {rule}")
        }
    }
}

/// How many functions, objects, loops, checks and values of static objects a text has.
fn accepted(alloc: Global, unit: &TypedUnit) -> Result<String, AllocError> {
    let functions = unit.functions.as_slice().len();
    let objects = unit.objects.as_slice().len();
    let loops = unit.loops.as_slice().len();
    let checks = unit.checks.as_slice().len();
    let statics = unit.statics.as_slice().len();
    format!(in alloc;
        "functions {functions} objects {objects} loops {loops} checks {checks} statics {statics}"
    )
}

fn answer(alloc: Global, overflow: bool, text: &[u8]) -> Result<String, AllocError> {
    if text.len() as u64 > TEXT_LIMIT {
        return String::from_str(alloc, "too long");
    }
    let read = tokens(alloc, text)?;
    match parse(alloc, &read) {
        Err(fault) => refused(alloc, fault),
        Ok(unit) => match check(alloc, &unit, overflow) {
            Err(fault) => refused(alloc, fault),
            Ok(typed) => accepted(alloc, &typed),
        },
    }
}

fn main(rt: HostRuntime) -> io::Result<()> {
    for line in rt.lines(rt.alloc()) {
        let line = line?;
        let (word, rest) = line.as_str().split_once(' ').unwrap_or((line.as_str(), ""));
        let said = answer(rt.alloc(), word == "overflow", rest.as_bytes())?;
        println!(rt; "{said}")?;
    }
    Ok(())
}
