ghost use Rattle.std.specs.Prelude.{◌≡◌, ◌++◌, Some, IfOk, codes, decimal, string_bytes};
ghost use Rattle.l2_cert.specs.Certificate.{kind_word};
ghost use Rattle.l2_check_answer.specs.Said.{accepted_line, bad_line, certificate_line, fault_line, fault_text, overflow_text};

use l2_cert::CertKind;
use l2_check::{Accepted, CheckError};
use l2_status::push_number;
use std::alloc::{AllocError, Global};

fn kind_name(kind: CertKind) -> &'static str
    ensures { result.now ≡ kind_word kind }
{
    match kind {
        CertKind::Safe => "safe",
        CertKind::Terminating => "terminating",
    }
}

fn overflow_text(overflow: bool) -> &'static str
    ensures { result.now ≡ overflow_text overflow }
{
    if overflow { " overflow" } else { "" }
}

/// The line that is printed for an accepted certificate.
pub fn accepted_line(alloc: Global, accepted: Accepted) -> Result<Vec<u8>, AllocError>
    ensures { IfOk result (λ line. line.items ≡ accepted_line accepted.kind accepted.k accepted.overflow) }
{
    let kind = kind_name(accepted.kind);
    let k = accepted.k;
    let overflow = overflow_text(accepted.overflow);
    let text = format!(in alloc; "ACCEPTED {kind} k={k}{overflow}\n")?;
    Ok(text.into_bytes())
}

/// A line about a certificate.
fn certificate_line(alloc: Global, fault: &str) -> Result<Vec<u8>, AllocError>
    ensures { IfOk result (λ line. line.items ≡ certificate_line fault.now) }
{
    let text = format!(in alloc; "CERTIFICATE {fault}\n")?;
    Ok(text.into_bytes())
}

/// The line that is printed for a file that is no certificate, by its first bad line.
pub fn bad_line(alloc: Global, line: u64) -> Result<Vec<u8>, AllocError>
    ensures { IfOk result (λ bytes. bytes.items ≡ bad_line line) }
{
    let fault = format!(in alloc; "BadLine {line}")?;
    certificate_line(alloc, fault.as_str())
}

/// A cause with two numbers.
fn with_two(alloc: Global, cause: &str, first: u64, second: u64) -> Result<String, AllocError>
    ensures { IfOk result (λ s. string_bytes s ≡ cause.now ++ decimal first ++ codes " " ++ decimal second) }
{
    let mut text = String::from_str(alloc, cause)?;
    push_number(alloc, &mut text, first)?;
    text.push_str(" ")?;
    push_number(alloc, &mut text, second)?;
    Ok(text)
}

/// Why a certificate isn't accepted.
fn fault_text(alloc: Global, error: CheckError) -> Result<String, AllocError>
    ensures { IfOk result (λ s. fault_text error ≡ Some (string_bytes s)) }
{
    match error {
        CheckError::BadName { line } => format!(in alloc; "BadName {line}"),
        CheckError::Size => String::from_str(alloc, "Size"),
        CheckError::WrongGoals { have, want } => with_two(alloc, "WrongGoals ", have, want),
        CheckError::BadStep { goal, step } => with_two(alloc, "BadStep ", goal, step),
        CheckError::Unclosed { goal } => format!(in alloc; "Unclosed {goal}"),
        CheckError::NoMemory => Err(AllocError),
    }
}

/// The line that is printed for a certificate that isn't accepted.
pub fn fault_line(alloc: Global, error: CheckError) -> Result<Vec<u8>, AllocError>
    ensures { IfOk result (λ line. fault_line error ≡ Some line.items) }
{
    let fault = fault_text(alloc, error)?;
    certificate_line(alloc, fault.as_str())
}
