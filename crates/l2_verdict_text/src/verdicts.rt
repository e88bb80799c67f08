ghost use Rattle.std.specs.Prelude.{◌≡◌, ◌++◌, Some, IfOk, OnOk};
ghost use Rattle.l2_runs.specs.Numbers.{at_number};
ghost use Rattle.l2_program.specs.Programs.{ProgramTree, program_tree};
ghost use Rattle.l2_meaning.specs.Lawful.{IsSome};
ghost use Rattle.l2_witness.specs.ValuesFile.{InRange};
ghost use Rattle.l2_kiki.specs.declared.decision.Decision.TheVariants.{Safe, Unsafe, Terminating, Unwind, Size};
ghost use Rattle.l2_verdict_text.specs.Texts.{Says, unsafe_line, verdict_line};

use crate::points::{push_point, push_ranks};
use l2_program::{CheckInfo, Program};
use l2_runs::index_of;
use l2_status::{Answer, Status, place_text};
use l2_templates::{Found, Point, Ranks};
use l2_witness::{Values, write_values};
use std::alloc::{AllocError, Global};

/// The line of a verdict.
fn push_verdict(alloc: Global, out: &mut Vec<u8>, verdict: &str, k: u32) -> Result<(), AllocError>
    ensures { OnOk result (out.new.items ≡ out.old.items ++ verdict_line verdict.now k) }
{
    out.extend_from_slice(format!(in alloc; "{verdict} k={k}\n")?.as_bytes())
}

/// The line of a check that is broken.
fn push_unsafe(
    alloc: Global,
    out: &mut Vec<u8>,
    k: u32,
    check: &CheckInfo,
) -> Result<(), AllocError>
    ensures { OnOk result (out.new.items ≡ out.old.items ++ unsafe_line k check.now) }
{
    let place = place_text(alloc, check.place)?;
    let kind = check.kind.name();
    out.extend_from_slice(format!(in alloc; "UNSAFE k={k} {kind} {place}\n")?.as_bytes())
}

/// The check of this number.
fn check_at(checks: &[CheckInfo], number: u32) -> &CheckInfo
    requires { IsSome (at_number checks.now number) }
    ensures { at_number checks.now number ≡ Some result.now }
{
    match index_of(number) {
        Some(index) => &checks[index],
        None => unreachable!(),
    }
}

/// What is printed of an execution that breaks a check: its values, and the check.
pub fn unsafe_text(
    alloc: Global,
    program: &Program,
    k: u32,
    found: Found,
) -> Result<Answer, AllocError>
    requires listed { IsSome (at_number program.now.checks found.check) }
    requires range { InRange found.turns found.choices }
    ensures { IfOk result (λ a. Says (program_tree program.now) (Unsafe k found) a.status a.output.items) }
{
    let check = check_at(program.checks.as_slice(), found.check);
    let values = Values {
        turns: found.turns,
        choices: found.choices,
    };
    let mut output = write_values(alloc, &values)?;
    push_unsafe(alloc, &mut output, k, check)?;
    Ok(Answer {
        status: Status::Unsafe,
        output,
    })
}

/// What is printed of a point that proves.
pub fn safe_text(
    alloc: Global,
    program: &Program,
    k: u32,
    point: &Point,
) -> Result<Answer, AllocError>
    ensures { IfOk result (λ a. Says (program_tree program.now) (Safe k point.now) a.status a.output.items) }
{
    let mut output = Vec::new(alloc);
    push_point(alloc, &mut output, program, point)?;
    push_verdict(alloc, &mut output, "SAFE", k)?;
    Ok(Answer {
        status: Status::Fine,
        output,
    })
}

/// What is printed of rankings at a point.
#[tactic(auto, using(std::proofs::Common::append_assoc))]
pub fn terminating_text(
    alloc: Global,
    program: &Program,
    k: u32,
    point: &Point,
    ranks: &Ranks,
) -> Result<Answer, AllocError>
    ensures { IfOk result (λ a. Says (program_tree program.now) (Terminating k point.now ranks.now) a.status a.output.items) }
{
    let mut output = Vec::new(alloc);
    push_point(alloc, &mut output, program, point)?;
    push_ranks(alloc, &mut output, program, ranks)?;
    push_verdict(alloc, &mut output, "TERMINATING", k)?;
    Ok(Answer {
        status: Status::Fine,
        output,
    })
}

/// What is printed where there is no answer up to this number of copies.
pub fn unwind_text(alloc: Global, k: u32) -> Result<Answer, AllocError>
    ensures { IfOk result (λ a. (p : ProgramTree) → Says p (Unwind k) a.status a.output.items) }
{
    let mut output = Vec::new(alloc);
    push_verdict(alloc, &mut output, "UNKNOWN unwind", k)?;
    Ok(Answer {
        status: Status::Unknown,
        output,
    })
}

/// What is printed where the code with so many copies is too large.
pub fn size_text(alloc: Global, k: u32) -> Result<Answer, AllocError>
    ensures { IfOk result (λ a. (p : ProgramTree) → Says p (Size k) a.status a.output.items) }
{
    let mut output = Vec::new(alloc);
    push_verdict(alloc, &mut output, "UNKNOWN size", k)?;
    Ok(Answer {
        status: Status::Unknown,
        output,
    })
}
