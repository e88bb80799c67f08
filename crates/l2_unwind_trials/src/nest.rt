// Three loops, one in another, as code by hand: `for (int a = 0; a < 9; a++)`, and so with b and c.
ghost use Rattle.std.specs.Prelude.{IfOk};
ghost use Rattle.l2_code.specs.Sets.{AllRise};

use l2_bits::{List, Ty};
use l2_code::{Code, CodeLoop, CodeObject, Item, Operand, Operator, PointsTo, Sets, emit};
use l2_runs::{CellType, CellValue};
use std::alloc::{AllocError, Global};

fn number(n: i128) -> Operand {
    Operand::Constant(CellValue::Number(n))
}

fn cell(object: u32) -> Operand {
    Operand::Constant(CellValue::At { object, offset: 0 })
}

/// The temporary so many behind one.
fn temp(first: u8, more: u8) -> u32 {
    u32::from(first) + u32::from(more)
}

/// The loop's condition: it leaves the loop where its variable isn't below 9.
fn condition(
    alloc: Global,
    items: &mut Vec<Item>,
    object: u32,
    first: u8,
) -> Result<(), AllocError> {
    let ty = Ty::INT;
    let value = temp(first, 0);
    let below = temp(first, 1);
    let holds = temp(first, 2);
    items.push(emit::read(alloc, value, CellType::Integer(ty), cell(object))?)?;
    items.push(emit::operator(
        alloc,
        below,
        Operator::Lt,
        ty,
        Operand::Temp(value),
        number(9),
    )?)?;
    items.push(emit::operator(
        alloc,
        holds,
        Operator::Ne,
        ty,
        Operand::Temp(below),
        number(0),
    )?)?;
    items.push(emit::unless(alloc, Operand::Temp(holds), 0)?)?;
    Ok(())
}

/// The loop's variable is one more.
fn step(alloc: Global, items: &mut Vec<Item>, object: u32, first: u8) -> Result<(), AllocError> {
    let ty = Ty::INT;
    let value = temp(first, 0);
    let sum = temp(first, 1);
    items.push(emit::read(alloc, value, CellType::Integer(ty), cell(object))?)?;
    items.push(emit::operator(
        alloc,
        sum,
        Operator::Add,
        ty,
        Operand::Temp(value),
        number(1),
    )?)?;
    items.push(emit::write(
        alloc,
        CellType::Integer(ty),
        cell(object),
        Operand::Temp(sum),
    )?)?;
    Ok(())
}

/// The loop of this number over the object of the same one, round these items.
fn counting(
    alloc: Global,
    loop_number: u32,
    head: u8,
    next: u8,
    inner: Vec<Item>,
) -> Result<Vec<Item>, AllocError> {
    let mut body = Vec::new(alloc);
    condition(alloc, &mut body, loop_number, head)?;
    for item in inner {
        body.push(item)?;
    }
    step(alloc, &mut body, loop_number, next)?;
    let mut left = Vec::new(alloc);
    left.push(emit::turn(loop_number, body))?;
    let mut items = Vec::new(alloc);
    items.push(emit::live(alloc, loop_number)?)?;
    items.push(emit::write(
        alloc,
        CellType::Integer(Ty::INT),
        cell(loop_number),
        number(0),
    )?)?;
    items.push(emit::block(left))?;
    items.push(emit::dead(alloc, loop_number)?)?;
    Ok(items)
}

fn object(alloc: Global, name: u8) -> Result<CodeObject, AllocError> {
    let cells = [CellType::Integer(Ty::INT)].to_vec(alloc)?;
    let start = [CellValue::Number(0)].to_vec(alloc)?;
    Ok(CodeObject {
        name: List::new([name].to_vec(alloc)?),
        is_static: false,
        hidden: false,
        cells: List::new(cells),
        start: List::new(start),
    })
}

/// A loop that changes these objects.
fn changing(alloc: Global, mods: &[u32]) -> Result<CodeLoop, AllocError> {
    Ok(CodeLoop {
        vars: List::new(mods.to_vec(alloc)?),
        mods: List::new(mods.to_vec(alloc)?),
    })
}

/// The code of the three loops.
pub fn nest(alloc: Global) -> Result<Code, AllocError> {
    let inner = counting(alloc, 3, 7, 10, Vec::new(alloc))?;
    let middle = counting(alloc, 2, 4, 12, inner)?;
    let mut items = counting(alloc, 1, 1, 14, middle)?;
    items.push(emit::end(alloc)?)?;
    items.push(emit::end(alloc)?)?;
    let mut objects = Vec::new(alloc);
    objects.push(object(alloc, b'a')?)?;
    objects.push(object(alloc, b'b')?)?;
    objects.push(object(alloc, b'c')?)?;
    let mut loops = Vec::new(alloc);
    loops.push(changing(alloc, &[1, 2, 3])?)?;
    loops.push(changing(alloc, &[2, 3])?)?;
    loops.push(changing(alloc, &[3])?)?;
    Ok(Code {
        objects: List::new(objects),
        pointed: List::new(Vec::new(alloc)),
        checks: List::new(Vec::new(alloc)),
        loops: List::new(loops),
        temps: 15,
        items,
    })
}

/// Nothing points anywhere.
pub fn no_sets(alloc: Global) -> Result<Sets, AllocError>
    ensures { IfOk result (λ s. AllRise s.sets) }
{
    let sets: Vec<PointsTo> = Vec::new(alloc);
    Ok(Sets {
        sets: List::new(sets),
        objects: List::new([0; 3].to_vec(alloc)?),
        temps: List::new([0; 15].to_vec(alloc)?),
    })
}
