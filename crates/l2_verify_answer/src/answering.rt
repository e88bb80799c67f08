ghost use Rattle.std.specs.Prelude.{◌≤◌, length, IfOk};
ghost use Rattle.l2_limits.specs.Limits.{text_limit};
ghost use Rattle.l2_verify_answer.specs.Verifies.{DecidesText, Terminates, Verifies, bytes_of};

use crate::deciding::decided_program;
use crate::verdicts::{Verdict, alone};
use l2_front::load;
use l2_kiki::Mode;
use l2_status::refused;
use l2_thresholds::thresholds_rise;
use l2_words::DomainName;
use std::alloc::{AllocError, Global};

/// What the decision of a text comes to.
fn decide_text(
    alloc: Global,
    mode: Mode,
    text: &[u8],
    unwind: u32,
    domain: DomainName,
    wanted: bool,
) -> Result<Verdict, AllocError>
    requires short { length text.now ≤ text_limit }
    requires some { 1 ≤ unwind }
    requires most { unwind ≤ 64 }
    ensures { IfOk result (λ v. DecidesText mode text.now unwind domain wanted v.answer.status v.answer.output.items (bytes_of v.certificate)) }
{
    thresholds_rise();
    match load(alloc, text) {
        Ok(loaded) => decided_program(alloc, &loaded, domain, mode, unwind, wanted),
        Err(fault) => Ok(alone(refused(alloc, fault)?)),
    }
}

/// What is answered to whether some execution of a text breaks a check, with up to so many copies of a loop's turn.
pub fn verify_answer(
    alloc: Global,
    text: &[u8],
    unwind: u32,
    domain: DomainName,
    wanted: bool,
) -> Result<Verdict, AllocError>
    requires short { length text.now ≤ text_limit }
    requires some { 1 ≤ unwind }
    requires most { unwind ≤ 64 }
    ensures { IfOk result (λ v. Verifies text.now unwind domain wanted v.answer.status v.answer.output.items (bytes_of v.certificate)) }
{
    decide_text(alloc, Mode::Safety, text, unwind, domain, wanted)
}

/// What is answered to whether all executions of a text end.
pub fn terminate_answer(
    alloc: Global,
    text: &[u8],
    unwind: u32,
    domain: DomainName,
    wanted: bool,
) -> Result<Verdict, AllocError>
    requires short { length text.now ≤ text_limit }
    requires some { 1 ≤ unwind }
    requires most { unwind ≤ 64 }
    ensures { IfOk result (λ v. Terminates text.now unwind domain wanted v.answer.status v.answer.output.items (bytes_of v.certificate)) }
{
    decide_text(alloc, Mode::Termination, text, unwind, domain, wanted)
}
