// Codes by hand.
use l2_bits::{List, Ty};
use l2_code::{Code, CodeLoop, CodeObject, Item, Operand, Operator, PointsTo, Sets, Test, emit};
use l2_runs::{CellType, CellValue, Member};
use std::alloc::{AllocError, Global};

fn number(n: i128) -> Operand {
    Operand::Constant(CellValue::Number(n))
}

fn cell(object: u32) -> Operand {
    Operand::Constant(CellValue::At { object, offset: 0 })
}

fn object(
    alloc: Global,
    name: u8,
    ty: CellType,
    start: CellValue,
) -> Result<CodeObject, AllocError> {
    let cells = [ty].to_vec(alloc)?;
    let start = [start].to_vec(alloc)?;
    Ok(CodeObject {
        name: List::new([name].to_vec(alloc)?),
        is_static: true,
        hidden: false,
        cells: List::new(cells),
        start: List::new(start),
    })
}

// Two integers and a pointer.
fn objects(alloc: Global) -> Result<Vec<CodeObject>, AllocError> {
    let int = CellType::Integer(Ty::INT);
    let mut objects = Vec::new(alloc);
    objects.push(object(alloc, b'a', int, CellValue::Number(0))?)?;
    objects.push(object(alloc, b'b', int, CellValue::Number(7))?)?;
    objects.push(object(alloc, b'p', CellType::Pointer, CellValue::Null)?)?;
    Ok(objects)
}

fn code(alloc: Global, items: Vec<Item>) -> Result<Code, AllocError> {
    let mut loops = Vec::new(alloc);
    for _ in 0..2_u32 {
        loops.push(CodeLoop {
            vars: List::new([1].to_vec(alloc)?),
            mods: List::new([1, 3].to_vec(alloc)?),
        })?;
    }
    Ok(Code {
        objects: List::new(objects(alloc)?),
        pointed: List::new(Vec::new(alloc)),
        checks: List::new(Vec::new(alloc)),
        loops: List::new(loops),
        temps: 4,
        items,
    })
}

/// The pointer is Null or points to an integer, and so is what temporary 2 holds.
pub fn sets(alloc: Global) -> Result<Sets, AllocError> {
    let members = [Member::Null, Member::Object(1), Member::Object(2)].to_vec(alloc)?;
    let mut all = Vec::new(alloc);
    all.push(PointsTo {
        members: List::new(members),
    })?;
    Ok(Sets {
        sets: List::new(all),
        objects: List::new([0, 0, 1].to_vec(alloc)?),
        temps: List::new([0, 1, 0, 0].to_vec(alloc)?),
    })
}

/// A choice is checked to be 5.
pub fn checked(alloc: Global) -> Result<Code, AllocError> {
    let mut items = Vec::new(alloc);
    items.push(emit::choice(alloc, 1, Ty::INT)?)?;
    items.push(emit::operator(alloc, 2, Operator::Eq, Ty::INT, Operand::Temp(1), number(5))?)?;
    items.push(emit::check(alloc, 1, Operand::Temp(2))?)?;
    items.push(emit::end(alloc)?)?;
    code(alloc, items)
}

/// One path writes an integer, the other doesn't.
pub fn joined(alloc: Global) -> Result<Code, AllocError> {
    let mut inner = Vec::new(alloc);
    inner.push(emit::choice(alloc, 1, Ty::INT)?)?;
    inner.push(emit::unless(alloc, Operand::Temp(1), 0)?)?;
    inner.push(emit::write(alloc, CellType::Integer(Ty::INT), cell(1), number(3))?)?;
    let mut items = Vec::new(alloc);
    items.push(emit::block(inner))?;
    items.push(emit::read(alloc, 2, CellType::Integer(Ty::INT), cell(1))?)?;
    items.push(emit::check(alloc, 1, Operand::Temp(2))?)?;
    items.push(emit::dead(alloc, 1)?)?;
    code(alloc, items)
}

/// A read and a write through a pointer, with a test of its life.
pub fn pointed(alloc: Global) -> Result<Code, AllocError> {
    let int = CellType::Integer(Ty::INT);
    let mut items = Vec::new(alloc);
    items.push(emit::live(alloc, 1)?)?;
    items.push(emit::read(alloc, 2, CellType::Pointer, cell(3))?)?;
    items.push(emit::passes(alloc, 1, Test::Live(Operand::Temp(2)))?)?;
    items.push(emit::check(alloc, 1, Operand::Temp(1))?)?;
    items.push(emit::passes(alloc, 1, Test::Null(Operand::Temp(2)))?)?;
    items.push(emit::assume(alloc, Operand::Temp(1))?)?;
    items.push(emit::read(alloc, 3, int, Operand::Temp(2))?)?;
    items.push(emit::moved(alloc, 4, 1, Operand::Temp(2), number(1))?)?;
    items.push(emit::write(alloc, int, Operand::Temp(2), Operand::Temp(3))?)?;
    items.push(emit::write(alloc, CellType::Pointer, cell(3), cell(2))?)?;
    code(alloc, items)
}

// A turn that leaves its loop by choice, and counts an integer up; the items stand between.
fn turn(alloc: Global, number_of_loop: u32, inner: Vec<Item>) -> Result<Item, AllocError> {
    let int = CellType::Integer(Ty::INT);
    let mut body = Vec::new(alloc);
    body.push(emit::choice(alloc, 1, Ty::BOOL)?)?;
    body.push(emit::unless(alloc, Operand::Temp(1), 0)?)?;
    for item in inner {
        body.push(item)?;
    }
    body.push(emit::read(alloc, 2, int, cell(1))?)?;
    body.push(emit::operator(
        alloc,
        3,
        Operator::Add,
        Ty::INT,
        Operand::Temp(2),
        number(1),
    )?)?;
    body.push(emit::write(alloc, int, cell(1), Operand::Temp(3))?)?;
    let mut items = Vec::new(alloc);
    items.push(emit::turn(number_of_loop, body))?;
    Ok(emit::block(items))
}

/// A loop.
pub fn looped(alloc: Global) -> Result<Code, AllocError> {
    let mut items = Vec::new(alloc);
    items.push(turn(alloc, 1, Vec::new(alloc))?)?;
    items.push(emit::read(alloc, 2, CellType::Integer(Ty::INT), cell(1))?)?;
    items.push(emit::check(alloc, 1, Operand::Temp(2))?)?;
    code(alloc, items)
}

/// A loop in a loop, with a jump out of both.
pub fn nested(alloc: Global) -> Result<Code, AllocError> {
    let mut inner = Vec::new(alloc);
    inner.push(turn(alloc, 2, Vec::new(alloc))?)?;
    inner.push(emit::goto(alloc, 0)?)?;
    let mut items = Vec::new(alloc);
    items.push(turn(alloc, 1, inner)?)?;
    code(alloc, items)
}
