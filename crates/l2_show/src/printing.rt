ghost use Rattle.std.specs.Prelude.{◌≡◌, ◌++◌, codes, IfOk, OnOk};
ghost use Rattle.l2_syntax.specs.Places.{place_text};
ghost use Rattle.l2_runs.specs.Numbers.{at_number};
ghost use Rattle.l2_program.specs.Programs.{program_tree};
ghost use Rattle.l2_show.specs.Loops.{object_name, object_text, spaced, objects_text, loop_head, loop_objects, loop_line, loop_lines, loops_text};

use l2_program::{LoopInfo, Program};
use l2_runs::index_of;
use l2_syntax::Place;
use std::alloc::{AllocError, Global};

/// The name of an object.
fn object_name(program: &Program, number: u32) -> &[u8]
    ensures { result.now ≡ object_name (program_tree program.now) (at_number program.now.objects number) }
{
    let Some(index) = index_of(number) else {
        return &[];
    };
    let Some(object) = program.objects.as_slice().get(index) else {
        return &[];
    };
    match program.names.as_slice().get(object.name as usize) {
        Some(name) => name.bytes.as_slice(),
        None => &[],
    }
}

/// `NAME#NUMBER`.
#[tactic(auto, using(std::proofs::Common::append_assoc))]
pub fn push_object(
    alloc: Global,
    out: &mut Vec<u8>,
    program: &Program,
    number: u32,
) -> Result<(), AllocError>
    ensures { OnOk result (out.new.items ≡ out.old.items ++ object_text (program_tree program.now) number) }
{
    out.extend_from_slice(object_name(program, number))?;
    out.extend_from_slice(format!(in alloc; "#{number}")?.as_bytes())
}

/// The same, behind a space.
#[tactic(auto, using(std::proofs::Common::append_assoc))]
fn push_next(
    alloc: Global,
    out: &mut Vec<u8>,
    program: &Program,
    number: u32,
) -> Result<(), AllocError>
    ensures { OnOk result (out.new.items ≡ out.old.items ++ (codes " " ++ object_text (program_tree program.now) number)) }
{
    out.extend_from_slice(b" ")?;
    push_object(alloc, out, program, number)
}

/// Objects, each behind a space.
fn push_spaced(
    alloc: Global,
    out: &mut Vec<u8>,
    program: &Program,
    numbers: &[u32],
) -> Result<(), AllocError>
    ensures { OnOk result (out.new.items ≡ out.old.items ++ spaced (program_tree program.now) numbers.now) }
{
    for i in 0..numbers.len() {
        push_next(alloc, out, program, numbers[i])?;
    }
    Ok(())
}

/// The same, with `-` for none.
fn push_objects(
    alloc: Global,
    out: &mut Vec<u8>,
    program: &Program,
    numbers: &[u32],
) -> Result<(), AllocError>
    ensures { OnOk result (out.new.items ≡ out.old.items ++ objects_text (program_tree program.now) numbers.now) }
{
    if numbers.is_empty() {
        out.extend_from_slice(b" -")
    } else {
        push_spaced(alloc, out, program, numbers)
    }
}

/// `LINE:COL`.
#[tactic(auto, using(std::proofs::Common::append_assoc))]
fn push_place(alloc: Global, out: &mut Vec<u8>, place: Place) -> Result<(), AllocError>
    ensures { OnOk result (out.new.items ≡ out.old.items ++ place_text place) }
{
    let line = place.line;
    let col = place.col;
    out.extend_from_slice(format!(in alloc; "{line}")?.as_bytes())?;
    out.extend_from_slice(b":")?;
    out.extend_from_slice(format!(in alloc; "{col}")?.as_bytes())
}

/// `loop NUMBER LINE:COL`.
#[tactic(auto, using(std::proofs::Common::append_assoc))]
fn push_head(
    alloc: Global,
    out: &mut Vec<u8>,
    number: usize,
    info: &LoopInfo,
) -> Result<(), AllocError>
    ensures { OnOk result (out.new.items ≡ out.old.items ++ loop_head number info.now) }
{
    out.extend_from_slice(format!(in alloc; "loop {number} ")?.as_bytes())?;
    push_place(alloc, out, info.place)
}

/// What a loop may change, and the variables of its rows.
#[tactic(auto, using(std::proofs::Common::append_assoc))]
fn push_loop_objects(
    alloc: Global,
    out: &mut Vec<u8>,
    program: &Program,
    info: &LoopInfo,
) -> Result<(), AllocError>
    ensures { OnOk result (out.new.items ≡ out.old.items ++ loop_objects (program_tree program.now) info.now) }
{
    out.extend_from_slice(b" mods")?;
    push_objects(alloc, out, program, info.mods.as_slice())?;
    out.extend_from_slice(b" vars")?;
    push_objects(alloc, out, program, info.vars.as_slice())
}

/// The line of a loop.
#[tactic(auto, using(std::proofs::Common::append_assoc))]
fn push_loop(
    alloc: Global,
    out: &mut Vec<u8>,
    program: &Program,
    number: usize,
    info: &LoopInfo,
) -> Result<(), AllocError>
    ensures { OnOk result (out.new.items ≡ out.old.items ++ loop_line (program_tree program.now) number info.now) }
{
    push_head(alloc, out, number, info)?;
    push_loop_objects(alloc, out, program, info)?;
    out.extend_from_slice(b"\n")
}

/// The loops of a program, a line each.
pub fn loops_text(alloc: Global, program: &Program) -> Result<Vec<u8>, AllocError>
    ensures { IfOk result (λ text. text.items ≡ loops_text (program_tree program.now)) }
{
    let mut out = Vec::new(alloc);
    let loops = program.loops.as_slice();
    for i in 0..loops.len() {
        push_loop(alloc, &mut out, program, i + 1, &loops[i])?;
    }
    Ok(out)
}
