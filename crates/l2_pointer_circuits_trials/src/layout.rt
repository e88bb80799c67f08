// A code with two objects: the first has the cells int, int, pointer, the second has one int.
use l2_bits::{List, Ty};
use l2_cnf::Lit;
use l2_code::{Code, CodeObject};
use l2_gates::Gates;
use l2_pointer_circuits::Flag;
use l2_runs::{CellType, CellValue, Member};
use std::alloc::{AllocError, Global};

pub const INT: CellType = CellType::Integer(Ty::INT);

pub const POINTER: CellType = CellType::Pointer;

/// The code, a set of pointers, live flags, and the gates.
#[derive(Drop)]
pub struct Table {
    pub gates: Gates,
    pub code: Code,
    pub set: Vec<Member>,
    pub flags: Vec<Flag>,
}

fn object(
    alloc: Global,
    cells: &[CellType],
    start: &[CellValue],
) -> Result<CodeObject, AllocError> {
    let cells = cells.to_vec(alloc)?;
    let start = start.to_vec(alloc)?;
    Ok(CodeObject {
        name: List::new(Vec::new(alloc)),
        is_static: false,
        hidden: false,
        cells: List::new(cells),
        start: List::new(start),
    })
}

fn make_code(alloc: Global) -> Result<Code, AllocError> {
    let first = object(
        alloc,
        &[INT, INT, POINTER],
        &[
            CellValue::Number(0),
            CellValue::Number(0),
            CellValue::Invalid,
        ],
    )?;
    let second = object(alloc, &[INT], &[CellValue::Number(0)])?;
    let mut objects = Vec::new(alloc);
    objects.push(first)?;
    objects.push(second)?;
    Ok(Code {
        objects: List::new(objects),
        pointed: List::new(Vec::new(alloc)),
        checks: List::new(Vec::new(alloc)),
        loops: List::new(Vec::new(alloc)),
        temps: 0,
        items: Vec::new(alloc),
    })
}

/// Null, Invalid and both objects; the first object is live.
pub fn make_table(alloc: Global) -> Result<Table, AllocError> {
    let gates = Gates::new(alloc)?;
    let code = make_code(alloc)?;
    let set = [
        Member::Null,
        Member::Invalid,
        Member::Object(1),
        Member::Object(2),
    ]
    .to_vec(alloc)?;
    let live = Flag {
        object: 1,
        live: Lit::new(1, true),
    };
    let dead = Flag {
        object: 2,
        live: Lit::new(1, false),
    };
    let flags = [live, dead].to_vec(alloc)?;
    Ok(Table {
        gates,
        code,
        set,
        flags,
    })
}

/// How many pointers there are.
pub const COUNT: usize = 9;

/// The pointers: Null, Invalid, five of the first object, of which the last has an offset beyond it, and two of the second.
pub fn pointer(i: usize) -> CellValue {
    match i {
        0 => CellValue::Null,
        1 => CellValue::Invalid,
        2 => CellValue::At {
            object: 1,
            offset: 0,
        },
        3 => CellValue::At {
            object: 1,
            offset: 1,
        },
        4 => CellValue::At {
            object: 1,
            offset: 2,
        },
        5 => CellValue::At {
            object: 1,
            offset: 3,
        },
        6 => CellValue::At {
            object: 1,
            offset: 5,
        },
        7 => CellValue::At {
            object: 2,
            offset: 0,
        },
        _ => CellValue::At {
            object: 2,
            offset: 1,
        },
    }
}

/// A constant literal as a digit; 9 where it is a variable.
pub fn digit(l: Lit) -> u64 {
    if l.var() == 1 {
        u64::from(l.is_positive())
    } else {
        9
    }
}

/// The number of a constant word of at most 64 bits; a variable's digit is out of place.
pub fn number(word: &[Lit]) -> u64 {
    let mut bits: u64 = 0;
    for i in 0..word.len() {
        bits = bits
            .saturating_mul(2)
            .saturating_add(digit(word[word.len() - 1 - i]));
    }
    bits
}
