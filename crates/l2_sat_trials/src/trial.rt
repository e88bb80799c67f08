// What is answered over files in memory, and how it is printed.
use l2_outside::{MemShelf, MemSink};
use l2_sat::sat_run;
use std::alloc::{AllocError, Global};
use std::collections::BTreeMap;

/// The files `f` and `p`, of which the calls with these numbers fail.
pub fn shelf(
    alloc: Global,
    formula: &str,
    proof: &str,
    failing: &[u64],
) -> Result<MemShelf, AllocError> {
    let mut files = BTreeMap::new(alloc);
    files.insert(
        String::from_str(alloc, "f")?,
        Vec::from_slice(alloc, formula.as_bytes())?,
    )?;
    files.insert(
        String::from_str(alloc, "p")?,
        Vec::from_slice(alloc, proof.as_bytes())?,
    )?;
    Ok(MemShelf::new(files, Vec::from_slice(alloc, failing)?))
}

fn words_of(alloc: Global, words: &[&str]) -> Result<Vec<String>, AllocError> {
    let mut all = Vec::new(alloc);
    for word in words {
        all.push(String::from_str(alloc, word)?)?;
    }
    Ok(all)
}

/// The status of a run and the bytes that a sink with room for this many takes, seven at once.
pub fn asked(
    alloc: Global,
    words: &[&str],
    shelf: &mut MemShelf,
    room: usize,
) -> Result<String, AllocError> {
    let all = words_of(alloc, words)?;
    let mut sink = MemSink::new(alloc, room, 7, Vec::new(alloc))?;
    let number = sat_run(alloc, &all, shelf, &mut sink).number();
    match str::from_utf8(sink.written.as_slice()) {
        Ok(text) => format!(in alloc; "{number} {text:?}"),
        Err(_) => String::from_str(alloc, "no text"),
    }
}

/// What the file `p` has.
pub fn proof(alloc: Global, shelf: &MemShelf) -> Result<String, AllocError> {
    match shelf.files.get("p") {
        Some(bytes) => match str::from_utf8(bytes.as_slice()) {
            Ok(text) => format!(in alloc; "{text:?}"),
            Err(_) => String::from_str(alloc, "no text"),
        },
        None => String::from_str(alloc, "no file"),
    }
}

/// What a command on these contents of `f` and `p` is answered.
pub fn answered(
    alloc: Global,
    name: &str,
    formula: &str,
    content: &str,
) -> Result<String, AllocError> {
    let mut shelf = shelf(alloc, formula, content, &[])?;
    asked(alloc, &[name, "f", "p"], &mut shelf, 1000)
}

/// What `solve` answers and writes, and what `check` then says.
pub fn both(alloc: Global, formula: &str) -> Result<String, AllocError> {
    let mut shelf = shelf(alloc, formula, "old", &[])?;
    let solved = asked(alloc, &["solve", "f", "p"], &mut shelf, 1000)?;
    let checked = asked(alloc, &["check", "f", "p"], &mut shelf, 1000)?;
    format!(in alloc; "{solved} {checked}")
}

/// Prints an answer, and says whether there was one.
pub fn report(rt: &HostRuntime, answer: Result<String, AllocError>) -> bool {
    match answer {
        Ok(text) => println!(rt; "{text}").is_ok(),
        Err(_) => false,
    }
}
