//! Makes the formulas of texts at points, and prints their numbers of variables, clauses and goals, and a digest of all clauses. A line
//! of the input is a certificate without goals, its lines parted by `|`, and then, behind a tab, a text, whose lines end with `\n`.
#![tactic(auto)]

ghost use Rattle.l2_code.specs.Sets.{AllRise};

use l2_cert::{Cert, CertError, CertKind, read};
use l2_code::{Code, Sets};
use l2_digest::digest;
use l2_front::{Loaded, load};
use l2_goals::{GoalError, Goals, goals_of};
use l2_limits::TEXT_LIMIT;
use l2_syntax::TextFault;
use std::alloc::{AllocError, Global};
use std::io;

fn described(alloc: Global, goals: &Goals) -> Result<String, AllocError> {
    let variables = goals.variables;
    let clauses = goals.base.len();
    let count = goals.last.len();
    let digest = digest(&goals.base, &goals.last);
    format!(in alloc; "variables {variables} clauses {clauses} goals {count} digest {digest:x}")
}

fn formulas(alloc: Global, code: &Code, sets: &Sets, cert: &Cert) -> Result<String, AllocError>
    requires { AllRise sets.now.sets }
{
    let ranks = match cert.kind {
        CertKind::Safe => None,
        CertKind::Terminating => Some(&cert.ranks),
    };
    match goals_of(alloc, code, sets, cert.k, &cert.point, ranks) {
        Ok(goals) => described(alloc, &goals),
        Err(GoalError::TooLarge) => String::from_str(alloc, "too large"),
        Err(GoalError::NoMemory) => Err(AllocError),
    }
}

fn of_loaded(alloc: Global, loaded: &Loaded, cert: &Cert) -> Result<String, AllocError> {
    loaded.whole();
    match &loaded.code {
        Some(code) => formulas(alloc, code, &loaded.sets, cert),
        None => String::from_str(alloc, "too large"),
    }
}

fn of_text(alloc: Global, text: &[u8], cert: &Cert) -> Result<String, AllocError> {
    if text.len() as u64 > TEXT_LIMIT {
        return String::from_str(alloc, "too long");
    }
    match load(alloc, text) {
        Ok(loaded) => of_loaded(alloc, &loaded, cert),
        Err(TextFault::At(_)) => String::from_str(alloc, "refused"),
        Err(TextFault::NoMemory) => Err(AllocError),
    }
}

/// The bytes of a certificate, whose lines are parted by `|`.
fn unfolded(alloc: Global, bytes: &[u8]) -> Result<Vec<u8>, AllocError> {
    let mut all = Vec::new(alloc);
    for byte in bytes {
        all.push(if *byte == b'|' { b'\n' } else { *byte })?;
    }
    all.push(b'\n')?;
    Ok(all)
}

/// The bytes of a text, in which `\n` stands for the end of a line.
fn unescaped(alloc: Global, bytes: &[u8]) -> Result<Vec<u8>, AllocError> {
    let mut all = Vec::new(alloc);
    let mut escaped = false;
    for byte in bytes {
        if escaped && *byte == b'n' {
            all.push(b'\n')?;
            escaped = false;
        } else {
            if escaped {
                all.push(b'\\')?;
            }
            escaped = *byte == b'\\';
            if !escaped {
                all.push(*byte)?;
            }
        }
    }
    Ok(all)
}

/// Where the first tab stands, or the end.
fn tab(bytes: &[u8]) -> usize {
    for i in 0..bytes.len() {
        if bytes[i] == b'\t' {
            return i;
        }
    }
    bytes.len()
}

fn said(alloc: Global, line: &[u8]) -> Result<String, AllocError> {
    let cut = tab(line);
    if cut >= line.len() {
        return String::from_str(alloc, "no text");
    }
    let certificate = unfolded(alloc, &line[..cut])?;
    let text = unescaped(alloc, &line[cut + 1..])?;
    match read(alloc, &certificate) {
        Ok(cert) => of_text(alloc, &text, &cert),
        Err(CertError::BadLine { line }) => format!(in alloc; "bad line {line}"),
        Err(CertError::NoMemory) => Err(AllocError),
    }
}

fn main(rt: HostRuntime) -> io::Result<()> {
    let alloc = rt.alloc();
    for line in rt.lines(alloc) {
        let line = line?;
        let text = said(alloc, line.as_bytes())?;
        println!(rt; "{text}")?;
    }
    Ok(())
}
