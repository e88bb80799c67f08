// Codes that have each instruction, each operand and each type.
use crate::parts::{Around, INVALID, NULL, ZERO, cell, list, number, object};
use l2_bits::{Op, Ty};
use l2_code::{
    Code, CodeCheck, CodeLoop, Item, Operand, Operator, Pointed, PointerOperator, Test, emit,
};
use l2_runs::{CellType, CellValue, Kind};
use std::alloc::{AllocError, Global};

const INT: CellType = CellType::Integer(Ty::INT);

const SHORT: CellType = CellType::Integer(Ty::SHORT);

const P: Operand = Operand::Temp(1);

const Q: Operand = Operand::Temp(2);

/// Each operator on numbers, and each integer type.
pub fn numbers(alloc: Global) -> Result<Code, AllocError> {
    let all = [
        (Operator::Add, Ty::BOOL),
        (Operator::Sub, Ty::CHAR),
        (Operator::Mul, Ty::UCHAR),
        (Operator::Div, Ty::SHORT),
        (Operator::Rem, Ty::USHORT),
        (Operator::Shl, Ty::INT),
        (Operator::Shr, Ty::UINT),
        (Operator::And, Ty::LONG),
        (Operator::Or, Ty::ULONG),
        (Operator::Xor, Ty::INT),
        (Operator::Eq, Ty::INT),
        (Operator::Ne, Ty::INT),
        (Operator::Lt, Ty::INT),
        (Operator::Le, Ty::INT),
    ];
    let mut items = Vec::new(alloc);
    let mut temp: u32 = 0;
    for (operator, ty) in all {
        temp = temp.saturating_add(1);
        items.push(emit::operator(
            alloc,
            temp,
            operator,
            ty,
            number(-1),
            number(18_446_744_073_709_551_615),
        )?)?;
    }
    items.push(emit::convert(alloc, 15, Ty::LONG, Operand::Temp(14))?)?;
    items.push(emit::end(alloc)?)?;
    Ok(Around::new(alloc).with(15, items))
}

/// Objects with several types of cell, one that is hidden, and the pointed types of two shorts and of an int.
fn around(alloc: Global) -> Result<Around, AllocError> {
    let zero = CellValue::Number(0);
    let mut around = Around::new(alloc);
    let mixed = [INT, SHORT, INT];
    around.objects.push(object(alloc, b"many", &mixed, zero)?)?;
    let pointer = object(alloc, b"p", &[CellType::Pointer], CellValue::Invalid)?;
    around.objects.push(pointer)?;
    around.objects.push(object(alloc, b"-", &[INT], zero)?)?;
    let cells = list(alloc, &[SHORT, SHORT])?;
    around.pointed.push(Pointed { cells })?;
    let cells = list(alloc, &[INT])?;
    around.pointed.push(Pointed { cells })?;
    Ok(around)
}

/// Reads, writes, moves and comparisons of pointers: `t1` and `t2` point to any object.
pub fn pointers(alloc: Global) -> Result<Code, AllocError> {
    let mut items = Vec::new(alloc);
    items.push(emit::read(alloc, 1, CellType::Pointer, cell(2, 0))?)?;
    items.push(emit::moved(alloc, 2, -1, P, number(3))?)?;
    items.push(emit::pointers(alloc, 3, PointerOperator::Diff, P, Q)?)?;
    items.push(emit::pointers(alloc, 4, PointerOperator::Eq, P, NULL)?)?;
    items.push(emit::pointers(alloc, 5, PointerOperator::Ne, INVALID, Q)?)?;
    items.push(emit::pointers(alloc, 6, PointerOperator::Lt, P, cell(1, 2))?)?;
    items.push(emit::pointers(alloc, 7, PointerOperator::Le, cell(1, 0), Q)?)?;
    items.push(emit::read(alloc, 8, INT, P)?)?;
    items.push(emit::write(alloc, SHORT, Q, ZERO)?)?;
    items.push(emit::write(alloc, CellType::Pointer, P, NULL)?)?;
    items.push(emit::end(alloc)?)?;
    Ok(around(alloc)?.with(8, items))
}

/// Each test.
pub fn tests(alloc: Global) -> Result<Code, AllocError> {
    let all = [
        Test::Division(Ty::INT, number(6), number(2)),
        Test::Shift(Ty::LONG, number(63)),
        Test::Overflow(Op::Add, Ty::INT, number(1), number(2)),
        Test::Overflow(Op::Sub, Ty::CHAR, number(1), number(2)),
        Test::Overflow(Op::Mul, Ty::SHORT, number(1), number(2)),
        Test::Overflow(Op::Shl, Ty::LONG, number(1), number(2)),
        Test::Index(4, number(3)),
        Test::IndexEnd(4, number(4)),
        Test::Null(P),
        Test::Invalid(P),
        Test::Live(P),
        Test::Cells(1, P),
        Test::Cells(2, P),
        Test::Cells(2, cell(1, 0)),
        Test::Move(65_536, P, number(-1)),
        Test::Same(P, Q),
    ];
    let mut items = Vec::new(alloc);
    let mut temp: u32 = 2;
    for test in all {
        temp = temp.saturating_add(1);
        items.push(emit::passes(alloc, temp, test)?)?;
    }
    items.push(emit::end(alloc)?)?;
    Ok(around(alloc)?.with(18, items))
}

/// A jump out of one block, and one out of two.
fn jumps(alloc: Global) -> Result<Item, AllocError> {
    let mut inner = Vec::new(alloc);
    inner.push(emit::unless(alloc, P, 0)?)?;
    inner.push(emit::goto(alloc, 1)?)?;
    let mut outer = Vec::new(alloc);
    outer.push(emit::block(inner))?;
    outer.push(emit::assume(alloc, P)?)?;
    Ok(emit::block(outer))
}

/// A loop in a block, with these items in its turn.
fn nested(alloc: Global, number: u32, items: Vec<Item>) -> Result<Item, AllocError> {
    let mut block = Vec::new(alloc);
    block.push(emit::turn(number, items))?;
    Ok(emit::block(block))
}

/// Jumps, and three nested loops, each of which may change one more object than the one in it.
pub fn flow(alloc: Global) -> Result<Code, AllocError> {
    let mut around = around(alloc)?;
    let mods: [&[u32]; 3] = [&[1, 2, 3], &[2, 3], &[3]];
    for changed in mods {
        let (vars, mods) = (list(alloc, &[3])?, list(alloc, changed)?);
        around.loops.push(CodeLoop { vars, mods })?;
    }
    around.checks.push(CodeCheck {
        kind: Kind::Overflow,
        line: 12,
        col: 345,
    })?;
    let mut third = Vec::new(alloc);
    third.push(jumps(alloc)?)?;
    third.push(emit::goto(alloc, 2)?)?;
    let mut second = Vec::new(alloc);
    second.push(nested(alloc, 3, third)?)?;
    let mut first = Vec::new(alloc);
    first.push(nested(alloc, 2, second)?)?;
    let mut items = Vec::new(alloc);
    items.push(emit::choice(alloc, 1, Ty::BOOL)?)?;
    items.push(nested(alloc, 1, first)?)?;
    items.push(emit::check(alloc, 1, P)?)?;
    items.push(emit::end(alloc)?)?;
    Ok(around.with(1, items))
}
