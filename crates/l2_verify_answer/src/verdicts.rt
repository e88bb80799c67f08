ghost use Rattle.std.specs.Prelude.{◌≡◌, None, IfOk, Result};
ghost use Rattle.l2_program.specs.Programs.{program_tree};
ghost use Rattle.l2_code.specs.Trees.{code_of};
ghost use Rattle.l2_code.specs.Sets.{family};
ghost use Rattle.l2_cuts.specs.Cuts.{Proves, RankProves};
ghost use Rattle.l2_kiki.specs.declared.decision.Decision.TheVariants.{Safe, Terminating};
ghost use Rattle.l2_rank_verdict_laws.specs.Law.{AreOfCandidates};
ghost use Rattle.l2_certificates.proofs.Answering.{IsOfDomain};
ghost use Rattle.l2_verify_answer.specs.Decided.{IsBegun, IsCertificate, IsSaid};
ghost use Rattle.l2_verify_answer.specs.Verifies.{bytes_of};

use l2_certificates::safe_file;
use l2_code::{Code, Sets};
use l2_ending_certificates::terminating_file;
use l2_program::Program;
use l2_status::Answer;
use l2_templates::{Point, Ranks};
use l2_verdict_text::{safe_text, terminating_text};
use std::alloc::{AllocError, Global};

/// What is answered of a text, and what is to be written to the file of the certificate.
#[derive(Debug, Drop)]
pub struct Verdict {
    pub answer: Answer,
    /// Only where it is wanted, with status 0.
    pub certificate: Option<Vec<u8>>,
}

/// The certificate of a point that proves, where it is wanted.
fn safe_certificate(
    alloc: Global,
    program: &Program,
    code: &Code,
    sets: &Sets,
    k: u32,
    point: Point,
    wanted: bool,
) -> Result<Option<Vec<u8>>, AllocError>
    requires begun { IsBegun (program_tree program.now) (code_of code.now) sets.now k }
    requires domain { IsOfDomain (program_tree program.now) (code_of code.now) (family sets.now) k point }
    requires proves { Proves (program_tree program.now) (family sets.now).object k point }
    ensures { IfOk result (λ file. IsCertificate (program_tree program.now) (Safe k point) wanted (bytes_of file)) }
{
    if !wanted {
        return Ok(None);
    }
    let file = safe_file(alloc, program, code, sets, k, point)?;
    Ok(Some(file))
}

/// The answer of a point that proves.
pub fn safe_verdict(
    alloc: Global,
    program: &Program,
    code: &Code,
    sets: &Sets,
    k: u32,
    point: Point,
    wanted: bool,
) -> Result<Verdict, AllocError>
    requires begun { IsBegun (program_tree program.now) (code_of code.now) sets.now k }
    requires domain { IsOfDomain (program_tree program.now) (code_of code.now) (family sets.now) k point }
    requires proves { Proves (program_tree program.now) (family sets.now).object k point }
    ensures { IfOk result (λ v. IsSaid (program_tree program.now) (Safe k point) wanted v.answer.status v.answer.output.items (bytes_of v.certificate)) }
{
    let answer = safe_text(alloc, program, k, &point)?;
    let certificate = safe_certificate(alloc, program, code, sets, k, point, wanted)?;
    Ok(Verdict {
        answer,
        certificate,
    })
}

/// The certificate of lists that rank the loops at a point, where it is wanted.
fn ending_certificate(
    alloc: Global,
    program: &Program,
    code: &Code,
    sets: &Sets,
    k: u32,
    point: Point,
    ranks: Ranks,
    wanted: bool,
) -> Result<Option<Vec<u8>>, AllocError>
    requires begun { IsBegun (program_tree program.now) (code_of code.now) sets.now k }
    requires domain { IsOfDomain (program_tree program.now) (code_of code.now) (family sets.now) k point }
    requires ranked { RankProves (program_tree program.now) (family sets.now).object k point ranks }
    requires candidates { AreOfCandidates (program_tree program.now) ranks }
    ensures { IfOk result (λ file. IsCertificate (program_tree program.now) (Terminating k point ranks) wanted (bytes_of file)) }
{
    if !wanted {
        return Ok(None);
    }
    let file = terminating_file(alloc, program, code, sets, k, point, ranks)?;
    Ok(Some(file))
}

/// The answer of lists that rank the loops at a point.
pub fn ending_verdict(
    alloc: Global,
    program: &Program,
    code: &Code,
    sets: &Sets,
    k: u32,
    point: Point,
    ranks: Ranks,
    wanted: bool,
) -> Result<Verdict, AllocError>
    requires begun { IsBegun (program_tree program.now) (code_of code.now) sets.now k }
    requires domain { IsOfDomain (program_tree program.now) (code_of code.now) (family sets.now) k point }
    requires ranked { RankProves (program_tree program.now) (family sets.now).object k point ranks }
    requires candidates { AreOfCandidates (program_tree program.now) ranks }
    ensures { IfOk result (λ v. IsSaid (program_tree program.now) (Terminating k point ranks) wanted v.answer.status v.answer.output.items (bytes_of v.certificate)) }
{
    let answer = terminating_text(alloc, program, k, &point, &ranks)?;
    let certificate = ending_certificate(alloc, program, code, sets, k, point, ranks, wanted)?;
    Ok(Verdict {
        answer,
        certificate,
    })
}

/// An answer without a certificate.
pub fn alone(answer: Answer) -> Verdict
    ensures answer { result.answer ≡ answer }
    ensures certificate { bytes_of result.certificate ≡ None }
{
    Verdict {
        answer,
        certificate: None,
    }
}
