//! Reads lines of words on its input, and prints what each asks for.
#![tactic(auto)]

use l2_words::{WordsError, command};
use std::alloc::{AllocError, Global};
use std::io;

/// What a line of words asks for.
fn answer(alloc: Global, line: &str) -> Result<String, AllocError> {
    let mut words = Vec::new(alloc);
    for word in line.split_whitespace() {
        words.push(String::from_str(alloc, word)?)?;
    }
    match command(alloc, &words) {
        Ok(request) => format!(in alloc; "{request:?}"),
        Err(WordsError::Usage) => String::from_str(alloc, "USAGE"),
        Err(WordsError::NoMemory) => Err(AllocError),
    }
}

fn main(rt: HostRuntime) -> io::Result<()> {
    for line in rt.lines(rt.alloc()) {
        let line = line?;
        let said = answer(rt.alloc(), line.as_str())?;
        println!(rt; "{said}")?;
    }
    Ok(())
}
