// What is answered over files in memory, and how it is printed.
use l2_answer::{Stored, answer};
use l2_outside::{Failed, MemShelf, MemSink, Shelf, write_text};
use l2_status::{Answer, Status};
use std::alloc::{AllocError, Global};
use std::collections::BTreeMap;
use std::marker::Sync;
use std::thread::Threads;

/// The files `a.c` and `v`, of which the reads with these numbers fail.
pub fn shelf(
    alloc: Global,
    text: &[u8],
    values: &str,
    failing: &[u64],
) -> Result<MemShelf, AllocError> {
    let mut files = BTreeMap::new(alloc);
    files.insert(
        String::from_str(alloc, "a.c")?,
        Vec::from_slice(alloc, text)?,
    )?;
    files.insert(
        String::from_str(alloc, "v")?,
        Vec::from_slice(alloc, values.as_bytes())?,
    )?;
    Ok(MemShelf::new(files, Vec::from_slice(alloc, failing)?))
}

/// The status and the bytes that a sink with room for this many takes of an answer, seven at once.
fn delivered(alloc: Global, given: &Answer, room: usize) -> Result<String, AllocError> {
    let mut sink = MemSink::new(alloc, room, 7, Vec::new(alloc))?;
    let status = match write_text(given.output.as_slice(), &mut sink) {
        Ok(()) => given.status,
        Err(Failed) => Status::WriteFault,
    };
    let number = status.number();
    match str::from_utf8(sink.written.as_slice()) {
        Ok(text) => format!(in alloc; "{number} {text:?}"),
        Err(_) => String::from_str(alloc, "no text"),
    }
}

/// Writes what is to be stored, and says whether this was done.
fn stored(alloc: Global, stored: &Option<Stored<'_>>, shelf: &mut MemShelf) -> bool {
    match stored {
        None => true,
        Some(file) => shelf.write(alloc, file.name, file.bytes.as_slice()).is_ok(),
    }
}

/// What words are answered.
pub fn asked<R: Threads + Sync + Print>(
    rt: &R,
    alloc: Global,
    words: &[&str],
    shelf: &mut MemShelf,
    room: usize,
) -> Result<String, AllocError> {
    let mut all = Vec::new(alloc);
    for word in words {
        all.push(String::from_str(alloc, word)?)?;
    }
    let told = answer(rt, alloc, &all, shelf)?;
    if !stored(alloc, &told.stored, shelf) {
        return format!(in alloc; "{} {:?}", Status::WriteFault.number(), "");
    }
    delivered(alloc, &told.answer, room)
}

/// What `replay a.c v` is answered on these contents.
pub fn replayed<R: Threads + Sync + Print>(
    rt: &R,
    alloc: Global,
    text: &[u8],
    values: &str,
) -> Result<String, AllocError> {
    let mut shelf = shelf(alloc, text, values, &[])?;
    asked(rt, alloc, &["replay", "a.c", "v"], &mut shelf, 100)
}

/// Prints an answer, and says whether there was one.
pub fn report<R: Print>(rt: &R, answer: Result<String, AllocError>) -> bool {
    match answer {
        Ok(text) => println!(rt; "{text}").is_ok(),
        Err(_) => false,
    }
}
