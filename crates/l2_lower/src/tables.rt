// The lists of a code.
ghost use Rattle.std.specs.Prelude.{◌≡◌, map, take, drop, IfOk};
ghost use Rattle.l2_program.specs.Programs.{program_tree};
ghost use Rattle.l2_meaning.specs.Execution.{first_cell, value_in, name_of};
ghost use Rattle.l2_lower.specs.Code.{code_object, code_objects, code_check, code_loop};

use l2_bits::List;
use l2_code::{CodeCheck, CodeLoop, CodeObject};
use l2_program::{CheckInfo, LoopInfo, ObjectInfo, Program, StaticValue};
use l2_runs::{CellType, CellValue};
use l2_syntax::Name;
use std::alloc::{AllocError, Global};

fn first_cell(ty: CellType) -> CellValue
    ensures { result ≡ first_cell ty }
{
    match ty {
        CellType::Integer(_) => CellValue::Number(0),
        CellType::Pointer => CellValue::Invalid,
    }
}

/// What the cells of an object hold that isn't static.
fn dead_cells(alloc: Global, types: &[CellType]) -> Result<Vec<CellValue>, AllocError>
    ensures { IfOk result (λ r. r.items ≡ map first_cell types.now) }
{
    let mut cells = Vec::new(alloc);
    for ty in types {
        cells.push(first_cell(*ty))?;
    }
    Ok(cells)
}

/// The first values, at most so many.
fn first_values(values: &[StaticValue], count: usize) -> &[StaticValue]
    ensures { result.now ≡ take count values.now }
{
    if count < values.len() {
        &values[..count]
    } else {
        values
    }
}

/// The values behind the first ones.
fn later_values(values: &[StaticValue], count: usize) -> &[StaticValue]
    ensures { result.now ≡ drop count values.now }
{
    if count < values.len() {
        &values[count..]
    } else {
        &[]
    }
}

/// What these values are.
fn static_cells(alloc: Global, values: &[StaticValue]) -> Result<Vec<CellValue>, AllocError>
    ensures { IfOk result (λ r. r.items ≡ map value_in values.now) }
{
    let mut cells = Vec::new(alloc);
    for s in values {
        cells.push(s.value)?;
    }
    Ok(cells)
}

/// The bytes of a name.
fn name_of(names: &[Name], n: u32) -> &[u8]
    ensures { result.now ≡ name_of names.now n }
{
    match names.get(n as usize) {
        Some(name) => name.bytes.as_slice(),
        None => &[],
    }
}

fn object(
    alloc: Global,
    names: &[Name],
    o: &ObjectInfo,
    start: Vec<CellValue>,
) -> Result<CodeObject, AllocError>
    ensures { IfOk result (λ r. r ≡ code_object names.now o.now start.items) }
{
    Ok(CodeObject {
        name: List::new(name_of(names, o.name).to_vec(alloc)?),
        is_static: o.is_static,
        hidden: false,
        cells: List::new(o.cells.as_slice().to_vec(alloc)?),
        start: List::new(start),
    })
}

/// A code's objects. The static values are read in one pass.
pub fn objects(alloc: Global, p: &Program) -> Result<Vec<CodeObject>, AllocError>
    ensures { IfOk result (λ r. r.items ≡ code_objects (program_tree p.now).names (program_tree p.now).static_values (program_tree p.now).objects) }
{
    let names = p.names.as_slice();
    let mut values = p.static_values.as_slice();
    let mut all = Vec::new(alloc);
    for o in p.objects.as_slice() {
        let count = o.cells.as_slice().len();
        if o.is_static {
            let start = static_cells(alloc, first_values(values, count))?;
            all.push(object(alloc, names, o, start)?)?;
            values = later_values(values, count);
        } else {
            let start = dead_cells(alloc, o.cells.as_slice())?;
            all.push(object(alloc, names, o, start)?)?;
        }
    }
    Ok(all)
}

fn check(c: &CheckInfo) -> CodeCheck
    ensures { result ≡ code_check c.now }
{
    CodeCheck {
        kind: c.kind,
        line: c.place.line,
        col: c.place.col,
    }
}

pub fn checks(alloc: Global, all: &[CheckInfo]) -> Result<Vec<CodeCheck>, AllocError>
    ensures { IfOk result (λ r. r.items ≡ map code_check all.now) }
{
    let mut checks = Vec::new(alloc);
    for c in all {
        checks.push(check(c))?;
    }
    Ok(checks)
}

fn loop_sets(alloc: Global, l: &LoopInfo) -> Result<CodeLoop, AllocError>
    ensures { IfOk result (λ r. r ≡ code_loop l.now) }
{
    Ok(CodeLoop {
        vars: List::new(l.vars.as_slice().to_vec(alloc)?),
        mods: List::new(l.mods.as_slice().to_vec(alloc)?),
    })
}

pub fn loops(alloc: Global, all: &[LoopInfo]) -> Result<Vec<CodeLoop>, AllocError>
    ensures { IfOk result (λ r. r.items ≡ map code_loop all.now) }
{
    let mut loops = Vec::new(alloc);
    for l in all {
        loops.push(loop_sets(alloc, l)?)?;
    }
    Ok(loops)
}
