// The store at the start.
ghost use Rattle.std.specs.Prelude.{◌≡◌, map, take, drop, length, IfOk};
ghost use Rattle.l2_program.specs.Programs.{program_tree};
ghost use Rattle.l2_meaning.specs.Execution.{first_cell, value_in, static_object, dead_object, first_store};

use crate::machine::ObjectState;
use l2_program::{ObjectInfo, Program, StaticValue};
use l2_runs::{CellType, CellValue};
use std::alloc::{AllocError, Global};

fn first_cell(ty: CellType) -> CellValue
    ensures { result ≡ first_cell ty }
{
    match ty {
        CellType::Integer(_) => CellValue::Number(0),
        CellType::Pointer => CellValue::Invalid,
    }
}

/// An object that isn't static, before it is live.
fn dead_object(alloc: Global, o: &ObjectInfo) -> Result<ObjectState, AllocError>
    ensures { IfOk result (λ r. r ≡ dead_object o.now) }
{
    let mut cells = Vec::new(alloc);
    for ty in o.cells.as_slice() {
        cells.push(first_cell(*ty))?;
    }
    Ok(ObjectState::new(cells, false))
}

/// The first values, at most so many.
fn first_values(values: &[StaticValue], count: usize) -> &[StaticValue]
    ensures { result.now ≡ take count values.now }
{
    if count < values.len() {
        &values[..count]
    } else {
        values
    }
}

/// The values behind the first ones.
fn later_values(values: &[StaticValue], count: usize) -> &[StaticValue]
    ensures { result.now ≡ drop count values.now }
{
    if count < values.len() {
        &values[count..]
    } else {
        &[]
    }
}

/// An object of static storage, which holds the first of these values.
fn static_object(
    alloc: Global,
    o: &ObjectInfo,
    values: &[StaticValue],
) -> Result<ObjectState, AllocError>
    ensures { IfOk result (λ r. r ≡ static_object o.now values.now) }
{
    let mut cells = Vec::new(alloc);
    for s in first_values(values, o.cells.as_slice().len()) {
        cells.push(s.value)?;
    }
    Ok(ObjectState::new(cells, true))
}

/// The store in which an execution starts. The static values are read in one pass.
pub fn first_store(alloc: Global, p: &Program) -> Result<Vec<ObjectState>, AllocError>
    ensures { IfOk result (λ store. store.items ≡ first_store (program_tree p.now)) }
{
    let mut values = p.static_values.as_slice();
    let mut store = Vec::new(alloc);
    for o in p.objects.as_slice() {
        if o.is_static {
            store.push(static_object(alloc, o, values)?)?;
            values = later_values(values, o.cells.as_slice().len());
        } else {
            store.push(dead_object(alloc, o)?)?;
        }
    }
    Ok(store)
}
