// What the reader says of tokens.
use crate::kinds::tokens;
use l2_grammar::Level;
use l2_reader::{expression, read};
use l2_syntax::Token;
use std::alloc::{AllocError, Global};

/// How tokens are read as a unit.
pub fn unit(alloc: Global, kinds: &str) -> Result<String, AllocError> {
    let all = tokens(alloc, kinds)?;
    match read(alloc, &all) {
        Ok(_) => String::from_str(alloc, "a unit"),
        Err(error) => format!(in alloc; "{error:?}"),
    }
}

/// How tokens are read as an expression from this index on, within so many brackets.
fn expression_from(
    alloc: Global,
    all: &[Token],
    at: usize,
    depth: u32,
    level: Level,
) -> Result<String, AllocError> {
    if at >= all.len() || depth > 128 {
        return String::from_str(alloc, "no such place");
    }
    match expression(alloc, all, at, depth, level) {
        Ok((_, end)) => format!(in alloc; "up to {end}"),
        Err(error) => format!(in alloc; "{error:?}"),
    }
}

/// The same for a line with the index, the count of brackets and the kinds.
pub fn expression_at(alloc: Global, level: Level, rest: &str) -> Result<String, AllocError> {
    if let Some((at, rest)) = rest.split_once(' ') {
        if let Some((depth, kinds)) = rest.split_once(' ') {
            if let (Ok(at), Ok(depth)) = (at.parse(), depth.parse()) {
                let all = tokens(alloc, kinds)?;
                return expression_from(alloc, &all, at, depth, level);
            }
        }
    }
    String::from_str(alloc, "no expression")
}
