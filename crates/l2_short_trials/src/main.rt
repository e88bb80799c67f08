//! Makes the formulas of short runs of texts, and prints their numbers of variables, clauses and goals, and a digest of all clauses. A
//! line of the input is a number of copies, a digit, and a text from its third byte on, in which `@` stands for the end of a line.
#![tactic(auto)]

ghost use Rattle.l2_code.specs.Sets.{AllRise};

use l2_code::{Code, Sets};
use l2_digest::digest;
use l2_front::{Loaded, load};
use l2_goals::{GoalError, Goals};
use l2_limits::TEXT_LIMIT;
use l2_short_goals::short;
use l2_syntax::TextFault;
use std::alloc::{AllocError, Global};
use std::io;

fn described(alloc: Global, goals: &Goals) -> Result<String, AllocError> {
    let variables = goals.variables;
    let clauses = goals.base.len();
    let count = goals.last.len();
    let digest = digest(&goals.base, &goals.last);
    format!(in alloc; "variables {variables} clauses {clauses} goals {count} digest {digest:x}")
}

fn formulas(alloc: Global, code: &Code, sets: &Sets, copies: u32) -> Result<String, AllocError>
    requires { AllRise sets.now.sets }
{
    match short(alloc, code, sets, copies) {
        Ok(shorts) => described(alloc, &shorts.goals),
        Err(GoalError::TooLarge) => String::from_str(alloc, "too large"),
        Err(GoalError::NoMemory) => Err(AllocError),
    }
}

fn of_loaded(alloc: Global, loaded: &Loaded, copies: u32) -> Result<String, AllocError> {
    loaded.whole();
    match &loaded.code {
        Some(code) => formulas(alloc, code, &loaded.sets, copies),
        None => String::from_str(alloc, "too large"),
    }
}

fn of_text(alloc: Global, text: &[u8], copies: u32) -> Result<String, AllocError> {
    if text.len() as u64 > TEXT_LIMIT {
        return String::from_str(alloc, "too long");
    }
    match load(alloc, text) {
        Ok(loaded) => of_loaded(alloc, &loaded, copies),
        Err(TextFault::At(_)) => String::from_str(alloc, "refused"),
        Err(TextFault::NoMemory) => Err(AllocError),
    }
}

/// The bytes of a text, in which `@` stands for the end of a line.
fn unfolded(alloc: Global, bytes: &[u8]) -> Result<Vec<u8>, AllocError> {
    let mut all = Vec::new(alloc);
    for byte in bytes {
        all.push(if *byte == b'@' { b'\n' } else { *byte })?;
    }
    Ok(all)
}

fn said(alloc: Global, line: &[u8]) -> Result<String, AllocError> {
    if line.len() < 2 {
        return String::from_str(alloc, "no text");
    }
    let copies = u32::from(line[0].wrapping_sub(b'0'));
    let text = unfolded(alloc, &line[2..])?;
    of_text(alloc, &text, copies)
}

fn main(rt: HostRuntime) -> io::Result<()> {
    let alloc = rt.alloc();
    for line in rt.lines(alloc) {
        let line = line?;
        let text = said(alloc, line.as_bytes())?;
        println!(rt; "{text}")?;
    }
    Ok(())
}
