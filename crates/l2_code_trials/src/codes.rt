// Codes that no small text comes to.
use crate::made::{INT, Made, POINTER, at, number};
use l2_code::{Code, Operand};
use l2_runs::CellValue;
use std::alloc::{AllocError, Global};

const NULL: Operand = Operand::Constant(CellValue::Null);

/// `q = &p; *q = &a; **q = 7;`
pub fn pointer_to_pointer(alloc: Global) -> Result<Code, AllocError> {
    let mut made = Made::new(alloc);
    made.pointer("p")?;
    made.pointer("q")?;
    made.int("a")?;
    made.write(POINTER, at(2, 0), at(1, 0))?;
    let q = made.read(POINTER, at(2, 0))?;
    made.write(POINTER, q, at(3, 0))?;
    let p = made.read(POINTER, q)?;
    made.write(INT, p, number(7))?;
    made.code()
}

/// `s.p = &a; t = s;`
pub fn copied_struct(alloc: Global) -> Result<Code, AllocError> {
    let mut made = Made::new(alloc);
    let start = [CellValue::Invalid, CellValue::Number(0)];
    made.object("s", false, &[POINTER, INT], &start)?;
    made.object("t", false, &[POINTER, INT], &start)?;
    made.int("a")?;
    made.write(POINTER, at(1, 0), at(3, 0))?;
    let first = made.read(POINTER, at(1, 0))?;
    let second = made.read(INT, at(1, 1))?;
    made.write(POINTER, at(2, 0), first)?;
    made.write(INT, at(2, 1), second)?;
    made.code()
}

/// `static int *p = &a; static int *q; *p = 1;`
pub fn static_address(alloc: Global) -> Result<Code, AllocError> {
    let mut made = Made::new(alloc);
    made.object(
        "p",
        true,
        &[POINTER],
        &[CellValue::At {
            object: 3,
            offset: 0,
        }],
    )?;
    made.object("q", true, &[POINTER], &[CellValue::Null])?;
    made.object("a", true, &[INT], &[CellValue::Number(0)])?;
    let p = made.read(POINTER, at(1, 0))?;
    made.write(INT, p, number(1))?;
    let _q = made.read(POINTER, at(2, 0))?;
    made.code()
}

/// `p = 0; *p;`
pub fn null(alloc: Global) -> Result<Code, AllocError> {
    let mut made = Made::new(alloc);
    made.pointer("p")?;
    made.write(POINTER, at(1, 0), NULL)?;
    let p = made.read(POINTER, at(1, 0))?;
    let _value = made.read(INT, p)?;
    made.code()
}

/// `p = &a[2]; *(p - 1) = 3;` for `int a[2]`
pub fn past_the_end(alloc: Global) -> Result<Code, AllocError> {
    let mut made = Made::new(alloc);
    made.object(
        "a",
        false,
        &[INT, INT],
        &[CellValue::Number(0), CellValue::Number(0)],
    )?;
    made.pointer("p")?;
    made.write(POINTER, at(2, 0), at(1, 2))?;
    let p = made.read(POINTER, at(2, 0))?;
    let back = made.moved(p, -1)?;
    made.write(INT, back, number(3))?;
    made.code()
}

/// `p = q; q = r; r = p; q = &a;`
pub fn cycle(alloc: Global) -> Result<Code, AllocError> {
    let mut made = Made::new(alloc);
    made.pointer("p")?;
    made.pointer("q")?;
    made.pointer("r")?;
    made.int("a")?;
    for (to, from) in [(1, 2), (2, 3), (3, 1)] {
        let value = made.read(POINTER, at(from, 0))?;
        made.write(POINTER, at(to, 0), value)?;
    }
    made.write(POINTER, at(2, 0), at(4, 0))?;
    made.code()
}

/// `p = &a; p = &s; *p = 5;` where `s` has a pointer, an int and an int
pub fn cells_of_a_type(alloc: Global) -> Result<Code, AllocError> {
    let mut made = Made::new(alloc);
    made.pointer("p")?;
    made.int("a")?;
    let start = [
        CellValue::Invalid,
        CellValue::Number(0),
        CellValue::Number(0),
    ];
    made.object("s", false, &[POINTER, INT, INT], &start)?;
    made.write(POINTER, at(1, 0), at(2, 0))?;
    made.write(POINTER, at(1, 0), at(3, 1))?;
    let p = made.read(POINTER, at(1, 0))?;
    made.write(INT, p, number(5))?;
    made.code()
}

/// `*p = q; q = *p;` where `p` may be `&q` or `&r`
pub fn cycle_through_a_pointer(alloc: Global) -> Result<Code, AllocError> {
    let mut made = Made::new(alloc);
    made.pointer("p")?;
    made.pointer("q")?;
    made.pointer("r")?;
    made.write(POINTER, at(1, 0), at(2, 0))?;
    made.write(POINTER, at(1, 0), at(3, 0))?;
    let p = made.read(POINTER, at(1, 0))?;
    let q = made.read(POINTER, at(2, 0))?;
    made.write(POINTER, p, q)?;
    let there = made.read(POINTER, p)?;
    made.write(POINTER, at(2, 0), there)?;
    made.write(POINTER, p, at(1, 0))?;
    made.code()
}

/// `x = s.i; t.i = x;` where `s` holds an address: the number has the set of its object
pub fn number_of_a_struct(alloc: Global) -> Result<Code, AllocError> {
    let mut made = Made::new(alloc);
    made.object(
        "s",
        true,
        &[POINTER, INT],
        &[
            CellValue::At {
                object: 4,
                offset: 0,
            },
            CellValue::Number(1),
        ],
    )?;
    made.object(
        "t",
        true,
        &[POINTER, INT],
        &[CellValue::Null, CellValue::Number(0)],
    )?;
    made.int("x")?;
    made.object("a", true, &[INT], &[CellValue::Number(0)])?;
    let i = made.read(INT, at(1, 1))?;
    made.write(INT, at(3, 0), i)?;
    let x = made.read(INT, at(3, 0))?;
    made.write(INT, at(2, 1), x)?;
    made.code()
}

/// Each of four objects points to the next, and has what that one has.
pub fn ring(alloc: Global) -> Result<Code, AllocError> {
    let mut made = Made::new(alloc);
    for name in ["a", "b", "c", "d"] {
        made.pointer(name)?;
    }
    for (from, to) in [(1, 2), (2, 3), (3, 4), (4, 1)] {
        made.write(POINTER, at(from, 0), at(to, 0))?;
        let next = made.read(POINTER, at(from, 0))?;
        let after = made.read(POINTER, next)?;
        made.write(POINTER, at(from, 0), after)?;
    }
    made.code()
}
