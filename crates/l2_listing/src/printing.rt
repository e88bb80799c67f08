// The listing of code, line by line.
ghost use Rattle.std.specs.Prelude.{◌≡◌, ◌++◌, map, IfOk, OnOk, string_bytes};
ghost use Rattle.l2_code.specs.Trees.{code_of};
ghost use Rattle.l2_listing.specs.Backwards.{instruction_of};
ghost use Rattle.l2_listing.specs.Texts.{instruction_text, place_text, object_line, check_line, instruction_line, lines_from, listing};

use crate::flattening::{Instruction, flat};
use crate::texts::action_text;
use l2_code::{Code, CodeCheck, CodeObject};
use std::alloc::{AllocError, Global};

fn instruction_text(alloc: Global, instruction: &Instruction<'_>) -> Result<String, AllocError>
    ensures { IfOk result (λ s. string_bytes s ≡ instruction_text (instruction_of instruction.now)) }
{
    match instruction {
        Instruction::Step(action, to) => action_text(alloc, action, *to),
        Instruction::Head(l) => format!(in alloc; "loop {l}"),
        Instruction::Close(l) => format!(in alloc; "close {l}"),
    }
}

#[tactic(auto, using(std::proofs::Common::append_assoc))]
fn push_object(
    alloc: Global,
    out: &mut Vec<u8>,
    n: usize,
    object: &CodeObject,
) -> Result<(), AllocError>
    ensures { OnOk result (out.new.items ≡ out.old.items ++ object_line n object.now) }
{
    let cells = object.cells.as_slice().len();
    out.extend_from_slice(format!(in alloc; "object {n} ")?.as_bytes())?;
    out.extend_from_slice(object.name.as_slice())?;
    out.extend_from_slice(format!(in alloc; " {cells}\n")?.as_bytes())
}

/// `LINE:COL`.
fn place_text(alloc: Global, line: u32, col: u32) -> Result<String, AllocError>
    ensures { IfOk result (λ s. string_bytes s ≡ place_text line col) }
{
    format!(in alloc; "{line}:{col}")
}

fn check_line(alloc: Global, n: usize, check: CodeCheck) -> Result<String, AllocError>
    ensures { IfOk result (λ s. string_bytes s ≡ check_line n check) }
{
    let kind = check.kind.name();
    let place = place_text(alloc, check.line, check.col)?;
    format!(in alloc; "check {n} {kind} {place}\n")
}

fn push_check(
    alloc: Global,
    out: &mut Vec<u8>,
    n: usize,
    check: CodeCheck,
) -> Result<(), AllocError>
    ensures { OnOk result (out.new.items ≡ out.old.items ++ check_line n check) }
{
    let line = check_line(alloc, n, check)?;
    out.extend_from_slice(line.as_bytes())
}

fn push_instruction(
    alloc: Global,
    out: &mut Vec<u8>,
    n: usize,
    instruction: &Instruction<'_>,
) -> Result<(), AllocError>
    ensures { OnOk result (out.new.items ≡ out.old.items ++ instruction_line n (instruction_of instruction.now)) }
{
    let text = instruction_text(alloc, instruction)?;
    let line = format!(in alloc; "{n} {text}\n")?;
    out.extend_from_slice(line.as_bytes())
}

fn push_objects(alloc: Global, out: &mut Vec<u8>, objects: &[CodeObject]) -> Result<(), AllocError>
    ensures { OnOk result (out.new.items ≡ out.old.items ++ lines_from object_line 1 objects.now) }
{
    for i in 0..objects.len() {
        push_object(alloc, out, i + 1, &objects[i])?;
    }
    Ok(())
}

fn push_checks(alloc: Global, out: &mut Vec<u8>, checks: &[CodeCheck]) -> Result<(), AllocError>
    ensures { OnOk result (out.new.items ≡ out.old.items ++ lines_from check_line 1 checks.now) }
{
    for i in 0..checks.len() {
        push_check(alloc, out, i + 1, checks[i])?;
    }
    Ok(())
}

fn push_instructions(
    alloc: Global,
    out: &mut Vec<u8>,
    list: &[Instruction<'_>],
) -> Result<(), AllocError>
    ensures { OnOk result (out.new.items ≡ out.old.items ++ lines_from instruction_line 0 (map instruction_of list.now)) }
{
    for n in 0..list.len() {
        push_instruction(alloc, out, n, &list[n])?;
    }
    Ok(())
}

/// The listing of code: its objects, its checks and its instructions, a line each.
#[tactic(auto, using(std::proofs::Common::append_assoc))]
pub fn listing(alloc: Global, code: &Code) -> Result<Vec<u8>, AllocError>
    ensures { IfOk result (λ bytes. bytes.items ≡ listing (code_of code.now)) }
{
    let list = flat(alloc, code)?;
    let mut out = Vec::new(alloc);
    push_objects(alloc, &mut out, code.objects.as_slice())?;
    push_checks(alloc, &mut out, code.checks.as_slice())?;
    push_instructions(alloc, &mut out, &list)?;
    Ok(out)
}
