// Codes of small texts.
ghost use Rattle.std.specs.Prelude.{◌<◌};

use crate::parts::{Around, ZERO, cell, list, number, object};
use l2_bits::Ty;
use l2_code::{Code, CodeCheck, CodeLoop, Item, Operand, Operator, emit};
use l2_runs::{CellType, CellValue, Kind};
use std::alloc::{AllocError, Global};

const INT: CellType = CellType::Integer(Ty::INT);

fn one_variable(alloc: Global, name: &[u8], col: u32) -> Result<Around, AllocError> {
    let mut around = Around::new(alloc);
    let variable = object(alloc, name, &[INT], CellValue::Number(0))?;
    around.objects.push(variable)?;
    around.checks.push(CodeCheck {
        kind: Kind::Assertion,
        line: 1,
        col,
    })?;
    Ok(around)
}

/// `dead 1`, `end`, twice: for the `return` of `main` and for its end.
fn push_ends(alloc: Global, items: &mut Vec<Item>) -> Result<(), AllocError> {
    items.push(emit::dead(alloc, 1)?)?;
    items.push(emit::end(alloc)?)?;
    items.push(emit::dead(alloc, 1)?)?;
    items.push(emit::end(alloc)?)?;
    Ok(())
}

/// Reads the variable into this temporary, compares it with a number, and whether that isn't 0.
fn push_test(
    alloc: Global,
    items: &mut Vec<Item>,
    first: u32,
    operator: Operator,
    with: i128,
) -> Result<(), AllocError>
    requires { first < 1000 }
{
    items.push(emit::read(alloc, first, INT, cell(1, 0))?)?;
    items.push(emit::operator(
        alloc,
        first + 1,
        operator,
        Ty::INT,
        Operand::Temp(first),
        number(with),
    )?)?;
    items.push(emit::operator(
        alloc,
        first + 2,
        Operator::Ne,
        Ty::INT,
        Operand::Temp(first + 1),
        ZERO,
    )?)?;
    Ok(())
}

/// `int main(void){int x=__VERIFIER_nondet_int();assert(x!=7);return 0;}`
pub fn chosen(alloc: Global) -> Result<Code, AllocError> {
    let around = one_variable(alloc, b"x", 46)?;
    let mut items = Vec::new(alloc);
    items.push(emit::live(alloc, 1)?)?;
    items.push(emit::choice(alloc, 1, Ty::INT)?)?;
    items.push(emit::write(alloc, INT, cell(1, 0), Operand::Temp(1))?)?;
    push_test(alloc, &mut items, 2, Operator::Ne, 7)?;
    items.push(emit::check(alloc, 1, Operand::Temp(4))?)?;
    push_ends(alloc, &mut items)?;
    Ok(around.with(4, items))
}

/// The turn `i<3`, `i=i+1`.
fn counting(alloc: Global) -> Result<Item, AllocError> {
    let mut turn = Vec::new(alloc);
    push_test(alloc, &mut turn, 1, Operator::Lt, 3)?;
    turn.push(emit::unless(alloc, Operand::Temp(3), 0)?)?;
    turn.push(emit::read(alloc, 4, INT, cell(1, 0))?)?;
    turn.push(emit::operator(
        alloc,
        5,
        Operator::Add,
        Ty::INT,
        Operand::Temp(4),
        number(1),
    )?)?;
    turn.push(emit::write(alloc, INT, cell(1, 0), Operand::Temp(5))?)?;
    Ok(emit::turn(1, turn))
}

/// `int main(void){int i=0;while(i<3){i=i+1;}assert(i==3);return 0;}`
pub fn counted(alloc: Global) -> Result<Code, AllocError> {
    let mut around = one_variable(alloc, b"i", 42)?;
    around.loops.push(CodeLoop {
        vars: list(alloc, &[1])?,
        mods: list(alloc, &[1])?,
    })?;
    let mut block = Vec::new(alloc);
    block.push(counting(alloc)?)?;
    let mut items = Vec::new(alloc);
    items.push(emit::live(alloc, 1)?)?;
    items.push(emit::write(alloc, INT, cell(1, 0), ZERO)?)?;
    items.push(emit::block(block))?;
    push_test(alloc, &mut items, 6, Operator::Eq, 3)?;
    items.push(emit::check(alloc, 1, Operand::Temp(8))?)?;
    push_ends(alloc, &mut items)?;
    Ok(around.with(8, items))
}
