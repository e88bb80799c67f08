//! Reads the texts on its input, and prints what the lexer and the reader say of each.
//!
//! A line is a word and what it is said of. `stop TEXT`: where the lexer stops, and by which rule. `read TEXT`: the tokens.
//! `place TEXT`: where they stand. `unit KINDS`: how the tokens of these kinds are read as a unit. `comma AT DEPTH KINDS`, and so
//! with `assignment` and `conditional`: how they are read as an expression from an index on, within so many brackets.
#![tactic(auto)]

mod kinds;
mod lexing;
mod reading;
mod spelling;

use l2_grammar::Level;
use std::alloc::{AllocError, Global};
use std::io;

/// What a line asks for.
fn answer(alloc: Global, word: &str, rest: &str) -> Result<String, AllocError> {
    match word {
        "stop" => lexing::stop(alloc, &spelling::bytes(alloc, rest)?),
        "read" => lexing::kinds(alloc, &spelling::bytes(alloc, rest)?),
        "place" => lexing::places(alloc, &spelling::bytes(alloc, rest)?),
        "unit" => reading::unit(alloc, rest),
        "comma" => reading::expression_at(alloc, Level::Comma, rest),
        "assignment" => reading::expression_at(alloc, Level::Assignment, rest),
        "conditional" => reading::expression_at(alloc, Level::Conditional, rest),
        _ => String::from_str(alloc, "no such word"),
    }
}

fn main(rt: HostRuntime) -> io::Result<()> {
    for line in rt.lines(rt.alloc()) {
        let line = line?;
        let (word, rest) = line.as_str().split_once(' ').unwrap_or((line.as_str(), ""));
        let said = answer(rt.alloc(), word, rest)?;
        println!(rt; "{said}")?;
    }
    Ok(())
}
