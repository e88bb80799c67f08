ghost use Rattle.std.specs.Prelude.{◌≡◌, ◌≤◌, false, length, IfOk};
ghost use Rattle.l2_limits.specs.Limits.{text_limit};
ghost use Rattle.l2_lines.specs.Lines.{lines_of, IsFirstBad};
ghost use Rattle.l2_program.specs.Programs.{program_tree};
ghost use Rattle.l2_front.specs.Programs.{not_built_yet};
ghost use Rattle.l2_cert.specs.Certificate.{InGrammar, IsFile};
ghost use Rattle.l2_status.specs.Printed.{refusal_line};
ghost use Rattle.l2_status.specs.Texts.{OfText};
ghost use Rattle.l2_check_answer.specs.Said.{bad_line};
ghost use Rattle.l2_check_answer.specs.Checks.{Checks, OfCertificate, OfFile};

use crate::line::{accepted_line, bad_line, fault_line};
use l2_cert::{Cert, CertError, read};
use l2_check::check;
use l2_front::{Loaded, load, program_of};
use l2_status::{Answer, Status, refused};
use l2_syntax::{Place, Refusal, Rule, TextFault};
use std::alloc::{AllocError, Global};
use std::marker::Sync;
use std::thread::Threads;

/// The answer of a certificate for a program.
fn answer_certificate<R: Threads + Sync>(
    rt: &R,
    alloc: Global,
    loaded: &Loaded,
    cert: &Cert,
    jobs: u32,
) -> Result<Answer, AllocError>
    requires spelt { InGrammar cert.now }
    requires plain { cert.now.overflow ≡ false }
    ensures { IfOk result (λ a. OfCertificate cert.now (program_tree loaded.now.program) a.status a.output.items) }
{
    match check(rt, alloc, loaded, cert, jobs) {
        Ok(accepted) => Ok(Answer {
            status: Status::Fine,
            output: accepted_line(alloc, accepted)?,
        }),
        Err(error) => Ok(Answer {
            status: Status::FileRefused,
            output: fault_line(alloc, error)?,
        }),
    }
}

/// The answer of a certificate for a text.
fn answer_text<R: Threads + Sync>(
    rt: &R,
    alloc: Global,
    text: &[u8],
    cert: &Cert,
    jobs: u32,
) -> Result<Answer, AllocError>
    requires short { length text.now ≤ text_limit }
    requires spelt { InGrammar cert.now }
    requires plain { cert.now.overflow ≡ false }
    ensures { IfOk result (λ a. OfText text.now (OfCertificate cert.now) a.status a.output.items) }
{
    match load(alloc, text) {
        Ok(loaded) => answer_certificate(rt, alloc, &loaded, cert, jobs),
        Err(fault) => refused(alloc, fault),
    }
}

/// What is said of a file that is no certificate, by its first bad line.
fn bad_file(alloc: Global, line: u64) -> Result<Answer, AllocError>
    ensures { IfOk result (λ a. (a.status ≡ Status.FileRefused) × (a.output.items ≡ bad_line line)) }
{
    Ok(Answer {
        status: Status::FileRefused,
        output: bad_line(alloc, line)?,
    })
}

/// The answer of a file that is no certificate for a text.
fn answer_unread(alloc: Global, text: &[u8], file: &[u8], line: u64) -> Result<Answer, AllocError>
    requires short { length text.now ≤ text_limit }
    requires bad { IsFirstBad IsFile (lines_of file.now) line }
    ensures { IfOk result (λ a. OfText text.now (OfFile file.now) a.status a.output.items) }
{
    match program_of(alloc, text) {
        Ok(_program) => bad_file(alloc, line),
        Err(fault) => refused(alloc, fault),
    }
}

/// A text is refused at its start where overflow of signed operators is to be a check.
const NOT_BUILT: Refusal = Refusal {
    place: Place {
        offset: 0,
        line: 1,
        col: 1,
    },
    rule: Rule::NotBuilt,
};

/// The answer of a certificate for which overflow of signed operators is a check.
fn answer_overflow(alloc: Global) -> Result<Answer, AllocError>
    ensures { IfOk result (λ a. (a.status ≡ Status.Refused) × (a.output.items ≡ refusal_line not_built_yet)) }
{
    refused(alloc, TextFault::At(NOT_BUILT))
}

/// The answer of the check of a certificate file against a text, in at most so many runs of goals at once. The answer doesn't
/// depend on their number.
pub fn check_answer<R: Threads + Sync>(
    rt: &R,
    alloc: Global,
    text: &[u8],
    file: &[u8],
    jobs: u32,
) -> Result<Answer, AllocError>
    requires { length text.now ≤ text_limit }
    ensures { IfOk result (λ a. Checks text.now file.now a.status a.output.items) }
{
    match read(alloc, file) {
        Ok(cert) => {
            if cert.overflow {
                answer_overflow(alloc)
            } else {
                answer_text(rt, alloc, text, &cert, jobs)
            }
        }
        Err(CertError::BadLine { line }) => answer_unread(alloc, text, file, line),
        Err(CertError::NoMemory) => Err(AllocError),
    }
}
