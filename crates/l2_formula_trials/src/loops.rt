// Codes of texts with loops.
use crate::made::{INT, Made, POINTER, at, number};
use crate::paths::BOOL;
use l2_bits::{Op, Ty};
use l2_code::{Operand, Operator, Test};
use l2_runs::{CellType, Kind};
use std::alloc::AllocError;

const UNSIGNED: CellType = CellType::Integer(Ty::UINT);

/// `while(1)while(1)return 0;`
pub fn nested(made: &mut Made) -> Result<(), AllocError> {
    made.looped(&[])?;
    made.looped(&[])?;
    let outer = made.inside();
    made.unless(number(1), 0)?;
    let inner = made.inside();
    made.unless(number(1), 0)?;
    made.end(&[])?;
    made.turn(2, inner)?;
    made.turn(1, outer)?;
    made.leave(&[])
}

/// `unsigned x=0,y=0;while(__VERIFIER_nondet_int()){x++;y++;}assert(x==y);`
pub fn two_counters(made: &mut Made) -> Result<(), AllocError> {
    made.numbers("x", &[UNSIGNED])?;
    made.numbers("y", &[UNSIGNED])?;
    made.looped(&[1, 2])?;
    for object in 1..3_u32 {
        made.live(object)?;
        made.write(UNSIGNED, at(object), number(0))?;
    }
    let outer = made.inside();
    let chosen = made.choice(Ty::INT)?;
    let holds = made.truth(chosen)?;
    made.unless(holds, 0)?;
    for object in 1..3_u32 {
        let value = made.read(UNSIGNED, at(object))?;
        let more = made.operator(Operator::Add, Ty::UINT, value, number(1))?;
        made.write(UNSIGNED, at(object), more)?;
    }
    made.turn(1, outer)?;
    let x = made.read(UNSIGNED, at(1))?;
    let y = made.read(UNSIGNED, at(2))?;
    let equal = made.operator(Operator::Eq, Ty::UINT, x, y)?;
    made.assertion(equal)?;
    made.leave(&[1, 2])
}

/// `unsigned i=3;while(i-->0);assert(i==4294967295u);`
pub fn down(made: &mut Made) -> Result<(), AllocError> {
    made.numbers("i", &[UNSIGNED])?;
    made.looped(&[1])?;
    made.live(1)?;
    made.write(UNSIGNED, at(1), number(3))?;
    let outer = made.inside();
    let i = made.read(UNSIGNED, at(1))?;
    let less = made.operator(Operator::Sub, Ty::UINT, i, number(1))?;
    made.write(UNSIGNED, at(1), less)?;
    let above = made.operator(Operator::Lt, Ty::UINT, number(0), i)?;
    let holds = made.truth(above)?;
    made.unless(holds, 0)?;
    made.turn(1, outer)?;
    let i = made.read(UNSIGNED, at(1))?;
    let equal = made.operator(Operator::Eq, Ty::UINT, i, number(4_294_967_295))?;
    made.assertion(equal)?;
    made.leave(&[1])
}

// The next number of type int, with the check that it is one.
fn counted_up(made: &mut Made, value: Operand) -> Result<Operand, AllocError> {
    let test = Test::Overflow(Op::Add, Ty::INT, value, number(1));
    made.passes(Kind::Overflow, test)?;
    made.operator(Operator::Add, Ty::INT, value, number(1))
}

// A number of a type narrower than int, at the object, is counted up by 1.
fn count_narrow(made: &mut Made, object: u32, ty: Ty) -> Result<(), AllocError> {
    let value = made.read(CellType::Integer(ty), at(object))?;
    let value = made.convert(Ty::INT, value)?;
    let more = counted_up(made, value)?;
    let more = made.convert(ty, more)?;
    made.write(CellType::Integer(ty), at(object), more)
}

/// `short a=0;unsigned short b=0;while(__VERIFIER_nondet_bool()){a++;b++;}assert(a==(short)b);`, with overflow as a check
pub fn narrow(made: &mut Made) -> Result<(), AllocError> {
    let short = CellType::Integer(Ty::SHORT);
    let unsigned_short = CellType::Integer(Ty::USHORT);
    made.numbers("a", &[short])?;
    made.numbers("b", &[unsigned_short])?;
    made.looped(&[1, 2])?;
    made.live(1)?;
    made.write(short, at(1), number(0))?;
    made.live(2)?;
    made.write(unsigned_short, at(2), number(0))?;
    let outer = made.inside();
    let chosen = made.choice(Ty::BOOL)?;
    let holds = made.operator(Operator::Ne, Ty::BOOL, chosen, number(0))?;
    made.unless(holds, 0)?;
    count_narrow(made, 1, Ty::SHORT)?;
    count_narrow(made, 2, Ty::USHORT)?;
    made.turn(1, outer)?;
    let a = made.read(short, at(1))?;
    let a = made.convert(Ty::INT, a)?;
    let b = made.read(unsigned_short, at(2))?;
    let b = made.convert(Ty::SHORT, b)?;
    let b = made.convert(Ty::INT, b)?;
    let equal = made.operator(Operator::Eq, Ty::INT, a, b)?;
    made.assertion(equal)?;
    made.leave(&[1, 2])
}

/// `_Bool b=1;while(b)b=!b;`
pub fn flag(made: &mut Made) -> Result<(), AllocError> {
    made.numbers("b", &[BOOL])?;
    made.looped(&[1])?;
    made.live(1)?;
    made.write(BOOL, at(1), number(1))?;
    let outer = made.inside();
    let b = made.read(BOOL, at(1))?;
    let holds = made.operator(Operator::Ne, Ty::BOOL, b, number(0))?;
    made.unless(holds, 0)?;
    let b = made.read(BOOL, at(1))?;
    let not = made.operator(Operator::Eq, Ty::BOOL, b, number(0))?;
    let not = made.convert(Ty::BOOL, not)?;
    made.write(BOOL, at(1), not)?;
    made.turn(1, outer)?;
    made.leave(&[1])
}

/// `int x;int main(void){int *p=&x;int y=0;while(y<3){*p=1;y++;}return 0;}`, where overflow is or isn't a check
pub fn written(made: &mut Made, overflow: bool) -> Result<(), AllocError> {
    made.static_int("x")?;
    made.pointer("p")?;
    made.numbers("y", &[INT])?;
    made.pointed_int()?;
    made.looped(&[1, 3])?;
    made.live(2)?;
    made.write(POINTER, at(2), at(1))?;
    made.live(3)?;
    made.write(INT, at(3), number(0))?;
    let outer = made.inside();
    let y = made.read(INT, at(3))?;
    let below = made.operator(Operator::Lt, Ty::INT, y, number(3))?;
    let holds = made.truth(below)?;
    made.unless(holds, 0)?;
    let p = made.read(POINTER, at(2))?;
    made.access(p)?;
    made.write(INT, p, number(1))?;
    let y = made.read(INT, at(3))?;
    let more = if overflow {
        counted_up(made, y)?
    } else {
        made.operator(Operator::Add, Ty::INT, y, number(1))?
    };
    made.write(INT, at(3), more)?;
    made.turn(1, outer)?;
    made.leave(&[2, 3])
}

/// `int x=0;int*p=&x;while(*p<3)(*p)++;assert(x==3);`
pub fn counted(made: &mut Made) -> Result<(), AllocError> {
    made.numbers("x", &[INT])?;
    made.pointer("p")?;
    made.pointed_int()?;
    made.looped(&[1])?;
    made.live(1)?;
    made.write(INT, at(1), number(0))?;
    made.live(2)?;
    made.write(POINTER, at(2), at(1))?;
    let outer = made.inside();
    let p = made.read(POINTER, at(2))?;
    made.access(p)?;
    let value = made.read(INT, p)?;
    let below = made.operator(Operator::Lt, Ty::INT, value, number(3))?;
    let holds = made.truth(below)?;
    made.unless(holds, 0)?;
    let p = made.read(POINTER, at(2))?;
    made.access(p)?;
    let value = made.read(INT, p)?;
    let more = made.operator(Operator::Add, Ty::INT, value, number(1))?;
    made.write(INT, p, more)?;
    made.turn(1, outer)?;
    let x = made.read(INT, at(1))?;
    let equal = made.operator(Operator::Eq, Ty::INT, x, number(3))?;
    made.assertion(equal)?;
    made.leave(&[1, 2])
}
