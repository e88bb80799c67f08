// Parts of the codes.
ghost use Rattle.std.specs.Prelude.{◌≡◌, IfOk};

use l2_bits::List;
use l2_code::{Code, CodeCheck, CodeLoop, CodeObject, Item, Operand, Pointed};
use l2_runs::{CellType, CellValue};
use std::alloc::{AllocError, Global};

pub const ZERO: Operand = Operand::Constant(CellValue::Number(0));

pub const NULL: Operand = Operand::Constant(CellValue::Null);

pub const INVALID: Operand = Operand::Constant(CellValue::Invalid);

pub fn number(value: i128) -> Operand {
    Operand::Constant(CellValue::Number(value))
}

pub fn cell(object: u32, offset: u32) -> Operand {
    Operand::Constant(CellValue::At { object, offset })
}

/// A list that has these items.
pub fn list<T: Copy + Drop>(alloc: Global, items: &[T]) -> Result<List<T>, AllocError> {
    let mut all = Vec::new(alloc);
    for item in items {
        all.push(*item)?;
    }
    Ok(List::new(all))
}

/// An object whose cells are of one type.
pub fn object(
    alloc: Global,
    name: &[u8],
    cells: &[CellType],
    start: CellValue,
) -> Result<CodeObject, AllocError> {
    let mut values = Vec::new(alloc);
    for _ in cells {
        values.push(start)?;
    }
    Ok(CodeObject {
        name: list(alloc, name)?,
        is_static: false,
        hidden: name == b"-".as_slice(),
        cells: list(alloc, cells)?,
        start: List::new(values),
    })
}

/// What code has beside its items.
#[derive(Drop)]
pub struct Around {
    pub objects: Vec<CodeObject>,
    pub pointed: Vec<Pointed>,
    pub checks: Vec<CodeCheck>,
    pub loops: Vec<CodeLoop>,
}

impl Around {
    pub fn new(alloc: Global) -> Around {
        Around {
            objects: Vec::new(alloc),
            pointed: Vec::new(alloc),
            checks: Vec::new(alloc),
            loops: Vec::new(alloc),
        }
    }

    pub fn with(self, temps: u32, items: Vec<Item>) -> Code {
        let Around {
            objects,
            pointed,
            checks,
            loops,
        } = self;
        Code {
            objects: List::new(objects),
            pointed: List::new(pointed),
            checks: List::new(checks),
            loops: List::new(loops),
            temps,
            items,
        }
    }
}
