//! Reads a certificate from each line of its input, with `/` in place of LF, and prints what `read` and `write` make of it,
//! and what is said of its steps where each goal's formula is the clause `1` and the empty clause.
#![tactic(auto)]

mod steps;

use crate::steps::answers;
use l2_cert::{CertError, read, write};
use std::alloc::{AllocError, Global};
use std::io;
use std::marker::Sync;
use std::thread::Threads;

/// The bytes of a line, with LF in place of `/`.
fn bytes_of(alloc: Global, line: &str) -> Result<Vec<u8>, AllocError> {
    let mut bytes = Vec::new(alloc);
    for &byte in line.as_bytes() {
        bytes.push(if byte == b'/' { b'\n' } else { byte })?;
    }
    Ok(bytes)
}

/// What comes of a certificate that is read and written again.
fn answer<R: Threads + Sync>(rt: &R, alloc: Global, bytes: &[u8]) -> Result<String, AllocError> {
    match read(alloc, bytes) {
        Ok(cert) => {
            let k = cert.k;
            let loops = cert.point.len();
            let ranks = cert.ranks.len();
            let goals = cert.goals.as_slice().len();
            let again = write(alloc, &cert)?;
            let same = again.as_slice() == bytes;
            let steps = answers(rt, alloc, cert.goals.as_slice())?;
            format!(in alloc;
                "k {k} loops {loops} ranks {ranks} goals {goals} written again: {same}; steps: {steps}"
            )
        }
        Err(CertError::BadLine { line }) => format!(in alloc; "bad line {line}"),
        Err(CertError::NoMemory) => String::from_str(alloc, "no memory"),
    }
}

fn main(rt: HostRuntime) -> io::Result<()> {
    for line in rt.lines(rt.alloc()) {
        let line = line?;
        let bytes = bytes_of(rt.alloc(), line.as_str())?;
        let said = answer(&rt, rt.alloc(), bytes.as_slice())?;
        println!(rt; "{said}")?;
    }
    Ok(())
}
