// Codes made instruction by instruction.
use l2_bits::{List, Ty};
use l2_code::{Code, CodeObject, Item, Operand, emit};
use l2_runs::{CellType, CellValue};
use std::alloc::{AllocError, Global};

pub const INT: CellType = CellType::Integer(Ty::INT);

pub const POINTER: CellType = CellType::Pointer;

/// The address of an object's cell.
pub fn at(object: u32, offset: u32) -> Operand {
    Operand::Constant(CellValue::At { object, offset })
}

pub fn number(value: i128) -> Operand {
    Operand::Constant(CellValue::Number(value))
}

/// A code that is made.
#[derive(Drop)]
pub struct Made {
    alloc: Global,
    objects: Vec<CodeObject>,
    temps: u32,
    items: Vec<Item>,
}

impl Made {
    pub fn new(alloc: Global) -> Made {
        Made {
            alloc,
            objects: Vec::new(alloc),
            temps: 0,
            items: Vec::new(alloc),
        }
    }

    /// An object with these cells, which start with these values.
    pub fn object(
        &mut self,
        name: &str,
        is_static: bool,
        cells: &[CellType],
        start: &[CellValue],
    ) -> Result<(), AllocError> {
        let name = name.as_bytes().to_vec(self.alloc)?;
        let cells = cells.to_vec(self.alloc)?;
        let start = start.to_vec(self.alloc)?;
        self.objects.push(CodeObject {
            name: List::new(name),
            is_static,
            hidden: false,
            cells: List::new(cells),
            start: List::new(start),
        })?;
        Ok(())
    }

    /// A pointer that isn't initialised.
    pub fn pointer(&mut self, name: &str) -> Result<(), AllocError> {
        self.object(name, false, &[POINTER], &[CellValue::Invalid])
    }

    /// A variable of type int.
    pub fn int(&mut self, name: &str) -> Result<(), AllocError> {
        self.object(name, false, &[INT], &[CellValue::Number(0)])
    }

    pub fn read(&mut self, ty: CellType, address: Operand) -> Result<Operand, AllocError> {
        self.temps = self.temps.saturating_add(1);
        let item = emit::read(self.alloc, self.temps, ty, address)?;
        self.items.push(item)?;
        Ok(Operand::Temp(self.temps))
    }

    pub fn write(
        &mut self,
        ty: CellType,
        address: Operand,
        value: Operand,
    ) -> Result<(), AllocError> {
        let item = emit::write(self.alloc, ty, address, value)?;
        self.items.push(item)?;
        Ok(())
    }

    /// A pointer, moved by a number of cells.
    pub fn moved(&mut self, pointer: Operand, by: i128) -> Result<Operand, AllocError> {
        self.temps = self.temps.saturating_add(1);
        let item = emit::moved(self.alloc, self.temps, 1, pointer, number(by))?;
        self.items.push(item)?;
        Ok(Operand::Temp(self.temps))
    }

    pub fn code(self) -> Result<Code, AllocError> {
        let Made {
            alloc,
            objects,
            temps,
            items,
        } = self;
        let mut items = items;
        let end = emit::end(alloc)?;
        items.push(end)?;
        Ok(Code {
            objects: List::new(objects),
            pointed: List::new(Vec::new(alloc)),
            checks: List::new(Vec::new(alloc)),
            loops: List::new(Vec::new(alloc)),
            temps,
            items,
        })
    }
}
