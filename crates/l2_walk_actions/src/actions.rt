// Single instructions.
ghost use Rattle.std.specs.Prelude.{◌≡◌, ◌∷◌, [], suc, IfOk, OnOk, drop};
ghost use Rattle.l2_code.specs.declared.action.Operand.TheVariants.{Constant, Temp};
ghost use Rattle.l2_code.specs.Sets.{may_be};
ghost use Rattle.l2_ssa.specs.Steps as steps;
ghost use Rattle.l2_ssa.specs.Walks.{now, stepped, with_temp, with_path, compute_step, computation_now, read_at, read_steps, write_at, write_steps, leave_steps, leave_path, on_unless, on_goto, on_check, walk_action};
ghost use Rattle.l2_walker.specs.Made.{state_of, setting, emitted, extended, standing, put, written};

use l2_bits::Ty;
use l2_code::{Action, Computation, Operand};
use l2_runs::{CellType, CellValue};
use l2_ssa::{Goal, PickStep};
use l2_walker::{FALSE, Frame, Place, TRUE, Walker, left_of, live_pointer, right_of, zero_of};
use std::alloc::AllocError;

// The step of a computation.
#[tactic(auto, using(crate::proofs::Computing::plain_step, crate::proofs::Computing::live_step))]
fn computed<'a>(walker: &mut Walker<'a>, what: &'a Computation) -> Result<Operand, AllocError>
    ensures name { IfOk result (λ a. a ≡ Temp (state_of walker.old).names) }
    ensures steps { OnOk result (state_of walker.new ≡ emitted (state_of walker.old) (compute_step (setting (state_of walker.old)) (state_of walker.old).walk what.now)) }
{
    let path = walker.path();
    match live_pointer(what) {
        Some(pointer) => {
            let flags = walker.flags(pointer)?;
            let now = walker.now(pointer);
            walker.alive(path, now, flags)
        }
        None => {
            let left = walker.now(left_of(what));
            let right = walker.now(right_of(what));
            walker.compute(path, what, left, right)
        }
    }
}

fn compute_into<'a>(
    walker: &mut Walker<'a>,
    temp: u32,
    what: &'a Computation,
) -> Result<(), AllocError>
    ensures { OnOk result (state_of walker.new ≡ put (state_of walker.old)
        (stepped (compute_step (setting (state_of walker.old)) (state_of walker.old).walk what.now ∷ []) (with_temp (state_of walker.old).walk temp (Temp (state_of walker.old).names)))) }
{
    let name = computed(walker, what)?;
    walker.set_temp(temp, name)
}

// What a read gives where a pointer may lead to these cells: so far the value is this one.
fn picked(
    walker: &mut Walker<'_>,
    pointer: Operand,
    ty: CellType,
    places: &[Place],
    first: Operand,
) -> Result<Operand, AllocError>
    ensures value { IfOk result (λ v. v ≡ (read_steps (state_of walker.old).walk pointer ty places.now first (state_of walker.old).names).value) }
    ensures steps { OnOk result (state_of walker.new ≡ extended (state_of walker.old) (read_steps (state_of walker.old).walk pointer ty places.now first (state_of walker.old).names).steps) }
{
    let path = walker.path();
    let mut value = first;
    for place in places {
        let object = place.object();
        let offset = place.offset();
        let there = walker.cell(object, offset);
        value = walker.pick(PickStep {
            path,
            pointer,
            object,
            offset,
            ty,
            there,
            elsewhere: value,
        })?;
    }
    Ok(value)
}

fn read_constant(walker: &Walker<'_>, ty: CellType, value: CellValue) -> Operand
    ensures { result ≡ (read_at (setting (state_of walker.now)) (state_of walker.now).walk ty (Constant value) (state_of walker.now).names).value }
{
    match value {
        CellValue::At { object, offset } => walker.cell(object, offset),
        CellValue::Number(_) => zero_of(ty),
        CellValue::Null => zero_of(ty),
        CellValue::Invalid => zero_of(ty),
    }
}

fn read(
    walker: &mut Walker<'_>,
    temp: u32,
    ty: CellType,
    address: Operand,
) -> Result<(), AllocError>
    ensures { OnOk result (state_of walker.new ≡ put (state_of walker.old)
        (stepped (read_at (setting (state_of walker.old)) (state_of walker.old).walk ty address (state_of walker.old).names).steps
        (with_temp (state_of walker.old).walk temp (read_at (setting (state_of walker.old)) (state_of walker.old).walk ty address (state_of walker.old).names).value))) }
{
    let value = match address {
        Operand::Constant(value) => read_constant(walker, ty, value),
        Operand::Temp(at) => {
            let places = walker.candidates(at, ty)?;
            let pointer = walker.now(address);
            picked(walker, pointer, ty, &places, zero_of(ty))?
        }
    };
    walker.set_temp(temp, value)
}

// A write where a pointer may lead to these cells.
fn spread(
    walker: &mut Walker<'_>,
    pointer: Operand,
    ty: CellType,
    value: Operand,
    places: &[Place],
) -> Result<(), AllocError>
    ensures { OnOk result (state_of walker.new ≡ written (state_of walker.old) (write_steps pointer ty value places.now (state_of walker.old).names (state_of walker.old).walk)) }
{
    let path = walker.path();
    for place in places {
        let object = place.object();
        let offset = place.offset();
        let elsewhere = walker.cell(object, offset);
        let cell = walker.pick(PickStep {
            path,
            pointer,
            object,
            offset,
            ty,
            there: value,
            elsewhere,
        })?;
        walker.set_cell(object, offset, cell);
    }
    Ok(())
}

fn write_constant(walker: &mut Walker<'_>, _ty: CellType, address: CellValue, value: Operand)
    ensures { state_of walker.new ≡ written (state_of walker.old) (write_at (setting (state_of walker.old)) (state_of walker.old).walk _ty (Constant address) value (state_of walker.old).names) }
{
    match address {
        CellValue::At { object, offset } => walker.set_cell(object, offset, value),
        CellValue::Number(_) => {}
        CellValue::Null => {}
        CellValue::Invalid => {}
    }
}

fn write(
    walker: &mut Walker<'_>,
    ty: CellType,
    address: Operand,
    value: Operand,
) -> Result<(), AllocError>
    ensures { OnOk result (state_of walker.new ≡ written (state_of walker.old)
        (write_at (setting (state_of walker.old)) (state_of walker.old).walk ty address (now (state_of walker.old).walk value) (state_of walker.old).names)) }
{
    let value = walker.now(value);
    match address {
        Operand::Constant(at) => {
            write_constant(walker, ty, at, value);
            Ok(())
        }
        Operand::Temp(at) => {
            let places = walker.candidates(at, ty)?;
            let pointer = walker.now(address);
            spread(walker, pointer, ty, value, &places)
        }
    }
}

fn choice(walker: &mut Walker<'_>, temp: u32, ty: Ty) -> Result<(), AllocError>
    ensures { OnOk result (state_of walker.new ≡ put (state_of walker.old)
        (stepped (steps.Take (state_of walker.old).walk.path ty ∷ []) (with_temp (state_of walker.old).walk temp (Temp (state_of walker.old).names)))) }
{
    let path = walker.path();
    let name = walker.take(path, ty)?;
    walker.set_temp(temp, name)
}

// The path goes on where the operand is true.
fn assume(walker: &mut Walker<'_>, holds: Operand) -> Result<(), AllocError>
    ensures { OnOk result (state_of walker.new ≡ put (state_of walker.old)
        (stepped (steps.Both (state_of walker.old).walk.path holds ∷ []) (with_path (state_of walker.old).walk (Temp (state_of walker.old).names)))) }
{
    let path = walker.path();
    let on = walker.both(path, holds)?;
    walker.set_path(on);
    Ok(())
}

fn checked(
    walker: &mut Walker<'_>,
    check: u32,
    holds: Operand,
    counting: Operand,
) -> Result<(), AllocError>
    ensures { OnOk result (state_of walker.new ≡ put (state_of walker.old) (on_check (state_of walker.old).ranks check counting holds (state_of walker.old).names (state_of walker.old).walk)) }
{
    if walker.asks_ranks() {
        return assume(walker, holds);
    }
    let path = walker.path();
    let counted = walker.both(path, counting)?;
    let broken = walker.but(counted, holds)?;
    walker.add_event(Goal::Check(check), broken)?;
    assume(walker, holds)
}

// The path of a jump over so many blocks.
#[tactic(auto, using(l2_walker::proofs::Framing::last_frame))]
fn leave(walker: &mut Walker<'_>, blocks: u32, path: Operand) -> Result<Operand, AllocError>
    ensures path { IfOk result (λ a. a ≡ leave_path (state_of walker.old).frames blocks path (state_of walker.old).names) }
    ensures steps { OnOk result (state_of walker.new ≡ extended (state_of walker.old) (leave_steps (state_of walker.old).frames blocks path (state_of walker.old).names)) }
{
    let mut left = blocks;
    let mut path = path;
    let mut frames = walker.frames_now()?;
    while let Some(frame) = frames.pop() {
        match frame {
            Frame::Block => {
                if left == 0 {
                    return Ok(path);
                }
                left -= 1;
            }
            Frame::Last => {}
            Frame::Early(back) => path = walker.but(path, back)?,
        }
    }
    Ok(path)
}

fn unless(walker: &mut Walker<'_>, holds: Operand, blocks: u32) -> Result<(), AllocError>
    ensures { OnOk result (state_of walker.new ≡ put (state_of walker.old) (on_unless (state_of walker.old).frames blocks holds (state_of walker.old).names (state_of walker.old).walk)) }
{
    let path = walker.path();
    let off = walker.but(path, holds)?;
    let out = leave(walker, blocks, off)?;
    walker.add_entry(blocks, out)?;
    assume(walker, holds)
}

fn goto(walker: &mut Walker<'_>, blocks: u32) -> Result<(), AllocError>
    ensures { OnOk result (state_of walker.new ≡ put (state_of walker.old) (on_goto (state_of walker.old).frames blocks (state_of walker.old).names (state_of walker.old).walk)) }
{
    let path = walker.path();
    let out = leave(walker, blocks, path)?;
    walker.add_entry(blocks, out)?;
    walker.set_path(FALSE);
    Ok(())
}

pub fn act<'a>(
    walker: &mut Walker<'a>,
    action: &'a Action,
    counting: Operand,
) -> Result<(), AllocError>
    ensures { OnOk result (state_of walker.new ≡ put (state_of walker.old) (walk_action (setting (state_of walker.old)) (state_of walker.old).frames counting (state_of walker.old).names (state_of walker.old).walk action.now)) }
{
    match action {
        Action::Compute(temp, what) => compute_into(walker, *temp, what),
        Action::Read(temp, ty, address) => read(walker, *temp, *ty, *address),
        Action::Write(ty, address, value) => write(walker, *ty, *address, *value),
        Action::Choice(temp, ty) => choice(walker, *temp, *ty),
        Action::Assume(holds) => {
            let holds = walker.now(*holds);
            assume(walker, holds)
        }
        Action::Check(check, holds) => {
            let holds = walker.now(*holds);
            checked(walker, *check, holds, counting)
        }
        Action::Unless(holds, blocks) => {
            let holds = walker.now(*holds);
            unless(walker, holds, *blocks)
        }
        Action::Goto(blocks) => goto(walker, *blocks),
        Action::Live(object) => {
            walker.set_live(*object, TRUE);
            Ok(())
        }
        Action::Dead(object) => {
            walker.set_live(*object, FALSE);
            Ok(())
        }
        Action::End => {
            walker.set_path(FALSE);
            Ok(())
        }
    }
}
