//! Checks certificates, each with 1, 2, 3 and 64 jobs, and prints the answer and whether all are alike; and then, of a certificate of
//! three goals or more, whether the first and the third waited for one another. A line of the input is a certificate, its lines parted
//! by `|`, and then, behind a tab, a text.
#![tactic(auto)]

ghost use Rattle.std.specs.Prelude.{◌≡◌, false};
ghost use Rattle.l2_cert.specs.Certificate.{InGrammar};

mod gates;

use crate::gates::Meeting;
use l2_cert::{Cert, CertError, CertKind, read};
use l2_check::{Accepted, CheckError, check, check_at};
use l2_front::{Loaded, load};
use l2_limits::TEXT_LIMIT;
use l2_syntax::TextFault;
use std::alloc::{AllocError, Global};
use std::io;
use std::marker::Sync;
use std::thread::Threads;

/// What is printed of an accepted certificate.
fn accepted(alloc: Global, accepted: Accepted) -> Result<String, AllocError> {
    let k = accepted.k;
    match accepted.kind {
        CertKind::Safe => format!(in alloc; "ACCEPTED safe k={k}"),
        CertKind::Terminating => format!(in alloc; "ACCEPTED terminating k={k}"),
    }
}

/// What is printed of one that isn't.
fn refused(alloc: Global, error: CheckError) -> Result<String, AllocError> {
    match error {
        CheckError::BadName { line } => format!(in alloc; "CERTIFICATE BadName {line}"),
        CheckError::Size => String::from_str(alloc, "CERTIFICATE Size"),
        CheckError::WrongGoals { have, want } => {
            format!(in alloc; "CERTIFICATE WrongGoals {have} {want}")
        }
        CheckError::BadStep { goal, step } => {
            format!(in alloc; "CERTIFICATE BadStep {goal} {step}")
        }
        CheckError::Unclosed { goal } => format!(in alloc; "CERTIFICATE Unclosed {goal}"),
        CheckError::NoMemory => String::from_str(alloc, "NO MEMORY"),
    }
}

fn answer(alloc: Global, checked: Result<Accepted, CheckError>) -> Result<String, AllocError> {
    match checked {
        Ok(said) => accepted(alloc, said),
        Err(error) => refused(alloc, error),
    }
}

/// What 1, 2, 3 and 64 jobs say.
fn by_jobs<R: Threads + Sync>(
    rt: &R,
    alloc: Global,
    loaded: &Loaded,
    cert: &Cert,
) -> Result<String, AllocError>
    requires spelt { InGrammar cert.now }
    requires plain { cert.now.overflow ≡ false }
{
    let one = check(rt, alloc, loaded, cert, 1);
    let two = check(rt, alloc, loaded, cert, 2);
    let three = check(rt, alloc, loaded, cert, 3);
    let many = check(rt, alloc, loaded, cert, 64);
    let alike = one == two && one == three && one == many;
    let text = answer(alloc, one)?;
    format!(in alloc; "{text}, alike {alike}")
}

/// Whether two goals wait for one another where there are two jobs.
fn at_gate<R: Threads + Sync>(
    rt: &R,
    alloc: Global,
    loaded: &Loaded,
    cert: &Cert,
) -> Result<String, AllocError>
    requires spelt { InGrammar cert.now }
    requires plain { cert.now.overflow ≡ false }
{
    let gate = Meeting::new();
    let text = answer(alloc, check_at(rt, alloc, loaded, cert, 2, &gate))?;
    let met = !gate.gave_up();
    format!(in alloc; "{text}, met {met}")
}

fn of_loaded<R: Threads + Sync>(
    rt: &R,
    alloc: Global,
    loaded: &Loaded,
    cert: &Cert,
) -> Result<String, AllocError>
    requires { InGrammar cert.now }
{
    if cert.overflow {
        return String::from_str(alloc, "overflow");
    }
    let first = by_jobs(rt, alloc, loaded, cert)?;
    if cert.goals.as_slice().len() < 3 {
        return Ok(first);
    }
    let second = at_gate(rt, alloc, loaded, cert)?;
    format!(in alloc; "{first}; {second}")
}

fn of_text<R: Threads + Sync>(
    rt: &R,
    alloc: Global,
    text: &[u8],
    cert: &Cert,
) -> Result<String, AllocError>
    requires { InGrammar cert.now }
{
    if text.len() as u64 > TEXT_LIMIT {
        return String::from_str(alloc, "TOO LONG");
    }
    match load(alloc, text) {
        Ok(loaded) => of_loaded(rt, alloc, &loaded, cert),
        Err(TextFault::At(_)) => String::from_str(alloc, "REFUSED"),
        Err(TextFault::NoMemory) => Err(AllocError),
    }
}

/// The bytes of a certificate, whose lines are parted by `|`.
fn unfolded(alloc: Global, bytes: &[u8]) -> Result<Vec<u8>, AllocError> {
    let mut all = Vec::new(alloc);
    for byte in bytes {
        all.push(if *byte == b'|' { b'\n' } else { *byte })?;
    }
    all.push(b'\n')?;
    Ok(all)
}

/// Where the first tab stands, or the end.
fn tab(bytes: &[u8]) -> usize {
    for i in 0..bytes.len() {
        if bytes[i] == b'\t' {
            return i;
        }
    }
    bytes.len()
}

fn said<R: Threads + Sync>(rt: &R, alloc: Global, line: &[u8]) -> Result<String, AllocError> {
    let cut = tab(line);
    if cut >= line.len() {
        return String::from_str(alloc, "no text");
    }
    let certificate = unfolded(alloc, &line[..cut])?;
    match read(alloc, &certificate) {
        Ok(cert) => of_text(rt, alloc, &line[cut + 1..], &cert),
        Err(CertError::BadLine { line }) => format!(in alloc; "CERTIFICATE BadLine {line}"),
        Err(CertError::NoMemory) => Err(AllocError),
    }
}

fn main(rt: HostRuntime) -> io::Result<()> {
    let alloc = rt.alloc();
    for line in rt.lines(alloc) {
        let line = line?;
        let text = said(&rt, alloc, line.as_bytes())?;
        println!(rt; "{text}")?;
    }
    Ok(())
}
