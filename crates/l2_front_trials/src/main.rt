//! Loads the texts on its input, a line each, and one with more instructions than code may have, and prints what comes of each,
//! and whether its code fits with 1 and with 64 copies of each turn.
#![tactic(auto)]

ghost use Rattle.l2_code.specs.Sets.{AllRise};

use l2_code::{Code, Sets};
use l2_front::{Loaded, load};
use l2_limits::TEXT_LIMIT;
use l2_syntax::TextFault;
use l2_unwind::{UnwindError, unwind};
use std::alloc::{AllocError, Global};
use std::io;

/// Whether code fits with so many copies of each turn and no rows, or how much it weighs.
fn unwound(alloc: Global, code: &Code, sets: &Sets, copies: u32) -> Result<String, AllocError>
    requires { AllRise sets.now.sets }
{
    match unwind(alloc, code, sets, copies, &[]) {
        Ok(flat) => {
            let copies = flat.copies;
            format!(in alloc; "{copies}: fits")
        }
        Err(UnwindError::TooLarge { size }) => format!(in alloc; "{copies}: too large, {size}"),
        Err(UnwindError::NoMemory) => Err(AllocError),
    }
}

/// What unwinding says of what was loaded, for 1 and for 64 copies.
fn unwindings(alloc: Global, loaded: &Loaded) -> Result<String, AllocError> {
    loaded.whole();
    match &loaded.code {
        Some(code) => {
            let one = unwound(alloc, code, &loaded.sets, 1)?;
            let most = unwound(alloc, code, &loaded.sets, 64)?;
            format!(in alloc; "unwound {one}, {most}")
        }
        None => String::from_str(alloc, "no code"),
    }
}

/// How large what was loaded is.
fn counts(alloc: Global, loaded: &Loaded) -> Result<String, AllocError> {
    let objects = loaded.program.objects.as_slice().len();
    let loops = loaded.program.loops.as_slice().len();
    let sets = loaded.sets.objects.as_slice().len();
    let temps = loaded.sets.temps.as_slice().len();
    match &loaded.code {
        Some(code) => {
            let named = code.objects.as_slice().len();
            let unwound = unwindings(alloc, loaded)?;
            format!(in alloc;
                "objects {objects} {named} loops {loops} sets {sets} {temps} {unwound}"
            )
        }
        None => format!(in alloc; "objects {objects} loops {loops} too large, sets {sets} {temps}"),
    }
}

/// What comes of a text.
fn said(alloc: Global, text: &[u8]) -> Result<String, AllocError> {
    if text.len() as u64 > TEXT_LIMIT {
        return String::from_str(alloc, "too long");
    }
    match load(alloc, text) {
        Ok(loaded) => counts(alloc, &loaded),
        Err(TextFault::At(refusal)) => {
            let line = refusal.place.line;
            let col = refusal.place.col;
            let rule = refusal.rule.name();
            format!(in alloc; "refused {line}:{col} {rule}")
        }
        Err(TextFault::NoMemory) => Err(AllocError),
    }
}

/// A text with so many assignments.
fn long(alloc: Global, assignments: usize) -> Result<Vec<u8>, AllocError> {
    let mut text = Vec::from_slice(alloc, b"int main(void){int n=0;")?;
    for _ in 0..assignments {
        text.extend_from_slice(b"n=1;")?;
    }
    text.extend_from_slice(b"return 0;}")?;
    Ok(text)
}

fn main(rt: HostRuntime) -> io::Result<()> {
    let alloc = rt.alloc();
    for line in rt.lines(alloc) {
        let line = line?;
        let text = said(alloc, line.as_bytes())?;
        println!(rt; "{text}")?;
    }
    let large = said(alloc, &long(alloc, 65_531)?)?;
    println!(rt; "{large}")
}
