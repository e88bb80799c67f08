// Codes of texts without loops.
use crate::made::{INT, Made, POINTER, at, cell, number};
use l2_bits::Ty;
use l2_code::{Operand, Operator, Test};
use l2_runs::{CellType, Kind};
use std::alloc::AllocError;

pub const BOOL: CellType = CellType::Integer(Ty::BOOL);

/// `_Bool c=__VERIFIER_nondet_bool();assert(c||!c);`
pub fn either(made: &mut Made) -> Result<(), AllocError> {
    made.numbers("c", &[BOOL])?;
    made.numbers("", &[INT])?;
    made.live(1)?;
    let chosen = made.choice(Ty::BOOL)?;
    made.write(BOOL, at(1), chosen)?;
    let c = made.read(BOOL, at(1))?;
    let left = made.operator(Operator::Ne, Ty::BOOL, c, number(0))?;
    let not_left = made.operator(Operator::Eq, Ty::INT, left, number(0))?;
    made.write(INT, at(2), number(1))?;
    let outer = made.inside();
    made.unless(not_left, 0)?;
    let c = made.read(BOOL, at(1))?;
    let not = made.operator(Operator::Eq, Ty::BOOL, c, number(0))?;
    let right = made.truth(not)?;
    made.write(INT, at(2), right)?;
    made.block(outer)?;
    let value = made.read(INT, at(2))?;
    made.assertion(value)?;
    made.leave(&[1])
}

/// `_Bool c=__VERIFIER_nondet_bool();assert(c);`
pub fn chosen(made: &mut Made) -> Result<(), AllocError> {
    made.numbers("c", &[BOOL])?;
    made.live(1)?;
    let chosen = made.choice(Ty::BOOL)?;
    made.write(BOOL, at(1), chosen)?;
    let c = made.read(BOOL, at(1))?;
    let holds = made.operator(Operator::Ne, Ty::BOOL, c, number(0))?;
    made.check(Kind::Assertion, holds)?;
    made.leave(&[1])
}

/// `_Bool a=__VERIFIER_nondet_bool(),b=__VERIFIER_nondet_bool();assert(a&b);`
pub fn both(made: &mut Made) -> Result<(), AllocError> {
    made.numbers("a", &[BOOL])?;
    made.numbers("b", &[BOOL])?;
    for object in 1..3_u32 {
        made.live(object)?;
        let chosen = made.choice(Ty::BOOL)?;
        made.write(BOOL, at(object), chosen)?;
    }
    let a = made.read(BOOL, at(1))?;
    let a = made.convert(Ty::INT, a)?;
    let b = made.read(BOOL, at(2))?;
    let b = made.convert(Ty::INT, b)?;
    let value = made.operator(Operator::And, Ty::INT, a, b)?;
    made.assertion(value)?;
    made.leave(&[1, 2])
}

// `int x=__VERIFIER_nondet_int();`, the object 1, and an int y that lives then, the object 2; with what x is read to.
fn chosen_int(made: &mut Made) -> Result<Operand, AllocError> {
    made.numbers("x", &[INT])?;
    made.numbers("y", &[INT])?;
    made.live(1)?;
    let chosen = made.choice(Ty::INT)?;
    made.write(INT, at(1), chosen)?;
    made.live(2)?;
    made.read(INT, at(1))
}

/// `int x=__VERIFIER_nondet_int();int y=1<<x;return y;`
pub fn shifted(made: &mut Made) -> Result<(), AllocError> {
    let x = chosen_int(made)?;
    made.passes(Kind::Shift, Test::Shift(Ty::INT, x))?;
    let value = made.operator(Operator::Shl, Ty::INT, number(1), x)?;
    made.write(INT, at(2), value)?;
    made.read(INT, at(2))?;
    made.leave(&[1, 2])
}

/// `int x=__VERIFIER_nondet_int();int y=x/-1;`
pub fn divided(made: &mut Made) -> Result<(), AllocError> {
    let x = chosen_int(made)?;
    made.passes(Kind::Division, Test::Division(Ty::INT, x, number(-1)))?;
    let value = made.operator(Operator::Div, Ty::INT, x, number(-1))?;
    made.write(INT, at(2), value)?;
    made.leave(&[1, 2])
}

// `__VERIFIER_nondet_int()?&a:&b`, of the objects 1 and 2, by the hidden object 4.
fn one_of_two(made: &mut Made) -> Result<Operand, AllocError> {
    let chosen = made.choice(Ty::INT)?;
    let first = made.truth(chosen)?;
    let before = made.inside();
    let outer = made.inside();
    made.unless(first, 0)?;
    made.write(POINTER, at(4), at(1))?;
    made.goto(1)?;
    made.block(outer)?;
    made.write(POINTER, at(4), at(2))?;
    made.block(before)?;
    made.read(POINTER, at(4))
}

// `a==1||b==1`, of the objects 1 and 2, by the hidden object 5.
fn either_is_one(made: &mut Made) -> Result<Operand, AllocError> {
    let a = made.read(INT, at(1))?;
    let left = made.operator(Operator::Eq, Ty::INT, a, number(1))?;
    let left = made.truth(left)?;
    let not_left = made.operator(Operator::Eq, Ty::INT, left, number(0))?;
    made.write(INT, at(5), number(1))?;
    let outer = made.inside();
    made.unless(not_left, 0)?;
    let b = made.read(INT, at(2))?;
    let right = made.operator(Operator::Eq, Ty::INT, b, number(1))?;
    let right = made.truth(right)?;
    made.write(INT, at(5), right)?;
    made.block(outer)?;
    made.read(INT, at(5))
}

/// `int a=0,b=0;int *p=__VERIFIER_nondet_int()?&a:&b;*p=1;assert(a==1||b==1);`
pub fn pointer_of_two(made: &mut Made) -> Result<(), AllocError> {
    made.numbers("a", &[INT])?;
    made.numbers("b", &[INT])?;
    made.pointer("p")?;
    made.pointer("")?;
    made.numbers("", &[INT])?;
    made.pointed_int()?;
    for object in 1..3_u32 {
        made.live(object)?;
        made.write(INT, at(object), number(0))?;
    }
    made.live(3)?;
    let target = one_of_two(made)?;
    made.write(POINTER, at(3), target)?;
    let p = made.read(POINTER, at(3))?;
    made.access(p)?;
    made.write(INT, p, number(1))?;
    let value = either_is_one(made)?;
    made.assertion(value)?;
    made.leave(&[1, 2, 3])
}

// `i>=0&&i<4`, of the object 2, by the hidden object 3.
fn in_reach(made: &mut Made) -> Result<Operand, AllocError> {
    let i = made.read(INT, at(2))?;
    let left = made.operator(Operator::Le, Ty::INT, number(0), i)?;
    let left = made.truth(left)?;
    made.write(INT, at(3), number(0))?;
    let outer = made.inside();
    made.unless(left, 0)?;
    let i = made.read(INT, at(2))?;
    let right = made.operator(Operator::Lt, Ty::INT, i, number(4))?;
    let right = made.truth(right)?;
    made.write(INT, at(3), right)?;
    made.block(outer)?;
    made.read(INT, at(3))
}

/// `int a[3]={0};int i=__VERIFIER_nondet_int();if(i>=0&&i<4)a[i]=1;`
pub fn cell_of_array(made: &mut Made) -> Result<(), AllocError> {
    made.numbers("a", &[INT, INT, INT])?;
    made.numbers("i", &[INT])?;
    made.numbers("", &[INT])?;
    made.live(1)?;
    for offset in 0..3_u32 {
        made.write(INT, cell(1, offset), number(0))?;
    }
    made.live(2)?;
    let chosen = made.choice(Ty::INT)?;
    made.write(INT, at(2), chosen)?;
    let value = in_reach(made)?;
    let holds = made.truth(value)?;
    let outer = made.inside();
    made.unless(holds, 0)?;
    let i = made.read(INT, at(2))?;
    made.passes(Kind::Bounds, Test::Index(3, i))?;
    let place = made.moved(at(1), i)?;
    made.write(INT, place, number(1))?;
    made.block(outer)?;
    made.leave(&[1, 2])
}
