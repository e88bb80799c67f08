// What a program is answered, and its certificate.
ghost use Rattle.std.specs.Prelude.{◌≡◌, ◌≤◌, IfOk};
ghost use Rattle.l2_program.specs.Programs.{program_tree};
ghost use Rattle.l2_code.specs.Trees.{code_of};
ghost use Rattle.l2_code.specs.Sets.{family};
ghost use Rattle.l2_verdicts.specs.Verdicts.{IsVerdict};
ghost use Rattle.l2_verify_answer.specs.Bounds.{AreThresholds, bounds_named, forms_named};
ghost use Rattle.l2_verify_answer.specs.Decided.{IsBegun, IsDecided, IsSaid};
ghost use Rattle.l2_verify_answer.specs.Verifies.{bytes_of};

use crate::domains::decision;
use crate::verdicts::{Verdict, alone, ending_verdict, safe_verdict};
use l2_code::{Code, Sets};
use l2_front::Loaded;
use l2_kiki::{Decision, Mode};
use l2_meaning::laws::broken_checks_are_listed;
use l2_program::Program;
use l2_verdict_laws::laws::terminating_law;
use l2_verdict_text::{size_text, unsafe_text, unwind_text};
use l2_words::DomainName;
use std::alloc::{AllocError, Global};

/// What is printed of an answer, and its certificate.
fn said(
    alloc: Global,
    program: &Program,
    code: &Code,
    sets: &Sets,
    domain: DomainName,
    mode: Mode,
    unwind: u32,
    wanted: bool,
    decision: Decision,
) -> Result<Verdict, AllocError>
    requires begun { IsBegun (program_tree program.now) (code_of code.now) sets.now unwind }
    requires bounds { AreThresholds program.now.thresholds }
    requires answered { IsVerdict (program_tree program.now) (code_of code.now) (family sets.now) (forms_named domain) (bounds_named domain program.now.thresholds) mode unwind decision }
    ensures { IfOk result (λ v. IsSaid (program_tree program.now) decision wanted v.answer.status v.answer.output.items (bytes_of v.certificate)) }
{
    broken_checks_are_listed();
    terminating_law();
    match decision {
        Decision::Safe { k, point } => safe_verdict(alloc, program, code, sets, k, point, wanted),
        Decision::Unsafe { k, found } => Ok(alone(unsafe_text(alloc, program, k, found)?)),
        Decision::Terminating { k, point, ranks } => {
            ending_verdict(alloc, program, code, sets, k, point, ranks, wanted)
        }
        Decision::Unwind { k } => Ok(alone(unwind_text(alloc, k)?)),
        Decision::Size { k } => Ok(alone(size_text(alloc, k)?)),
    }
}

/// What a program with its code is answered.
fn decided(
    alloc: Global,
    program: &Program,
    code: &Code,
    sets: &Sets,
    domain: DomainName,
    mode: Mode,
    unwind: u32,
    wanted: bool,
) -> Result<Verdict, AllocError>
    requires begun { IsBegun (program_tree program.now) (code_of code.now) sets.now unwind }
    requires bounds { AreThresholds program.now.thresholds }
    ensures { IfOk result (λ v. IsDecided mode unwind domain wanted (bytes_of v.certificate) (program_tree program.now) v.answer.status v.answer.output.items) }
{
    let decision = decision(alloc, program, code, sets, domain, mode, unwind)?;
    said(
        alloc, program, code, sets, domain, mode, unwind, wanted, decision,
    )
}

/// What the program of a text is answered.
pub fn decided_program(
    alloc: Global,
    loaded: &Loaded,
    domain: DomainName,
    mode: Mode,
    unwind: u32,
    wanted: bool,
) -> Result<Verdict, AllocError>
    requires bounds { AreThresholds loaded.now.program.thresholds }
    requires some { 1 ≤ unwind }
    requires most { unwind ≤ 64 }
    ensures { IfOk result (λ v. IsDecided mode unwind domain wanted (bytes_of v.certificate) (program_tree loaded.now.program) v.answer.status v.answer.output.items) }
{
    loaded.whole();
    match &loaded.code {
        Some(code) => decided(
            alloc,
            &loaded.program,
            code,
            &loaded.sets,
            domain,
            mode,
            unwind,
            wanted,
        ),
        None => Ok(alone(size_text(alloc, 1)?)),
    }
}
