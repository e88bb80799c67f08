// Codes made instruction by instruction, as texts are lowered.
use l2_bits::{List, Ty};
use l2_code::{
    Code, CodeCheck, CodeLoop, CodeObject, Item, Operand, Operator, Pointed, Test, emit,
};
use l2_runs::{CellType, CellValue, Kind};
use std::alloc::{AllocError, Global};
use std::mem;

pub const INT: CellType = CellType::Integer(Ty::INT);

pub const POINTER: CellType = CellType::Pointer;

/// The address of an object's first cell.
pub fn at(object: u32) -> Operand {
    cell(object, 0)
}

/// The address of an object's cell.
pub fn cell(object: u32, offset: u32) -> Operand {
    Operand::Constant(CellValue::At { object, offset })
}

pub fn number(value: i128) -> Operand {
    Operand::Constant(CellValue::Number(value))
}

/// A code that is made.
#[derive(Drop)]
pub struct Made {
    alloc: Global,
    objects: Vec<CodeObject>,
    pointed: Vec<Pointed>,
    checks: Vec<CodeCheck>,
    checked: u32,
    loops: Vec<CodeLoop>,
    temps: u32,
    items: Vec<Item>,
}

impl Made {
    pub fn new(alloc: Global) -> Made {
        Made {
            alloc,
            objects: Vec::new(alloc),
            pointed: Vec::new(alloc),
            checks: Vec::new(alloc),
            checked: 0,
            loops: Vec::new(alloc),
            temps: 0,
            items: Vec::new(alloc),
        }
    }

    fn add(
        &mut self,
        name: &str,
        is_static: bool,
        cells: &[CellType],
        start: CellValue,
    ) -> Result<(), AllocError> {
        let mut values = Vec::new(self.alloc);
        for _ in cells {
            values.push(start)?;
        }
        let hidden = name.as_bytes().is_empty();
        let name = if hidden { "-" } else { name };
        let name = name.as_bytes().to_vec(self.alloc)?;
        let cells = cells.to_vec(self.alloc)?;
        self.objects.push(CodeObject {
            name: List::new(name),
            is_static,
            hidden,
            cells: List::new(cells),
            start: List::new(values),
        })?;
        Ok(())
    }

    /// An object of numbers; one without a name is hidden.
    pub fn numbers(&mut self, name: &str, cells: &[CellType]) -> Result<(), AllocError> {
        self.add(name, false, cells, CellValue::Number(0))
    }

    /// A static object of type int.
    pub fn static_int(&mut self, name: &str) -> Result<(), AllocError> {
        self.add(name, true, &[INT], CellValue::Number(0))
    }

    /// A pointer that isn't initialised; one without a name is hidden.
    pub fn pointer(&mut self, name: &str) -> Result<(), AllocError> {
        self.add(name, false, &[POINTER], CellValue::Invalid)
    }

    /// The pointed type int, whose number is 1.
    pub fn pointed_int(&mut self) -> Result<(), AllocError> {
        let cells = [INT].to_vec(self.alloc)?;
        self.pointed.push(Pointed {
            cells: List::new(cells),
        })?;
        Ok(())
    }

    /// A loop that may change these objects, of which its rows may speak.
    pub fn looped(&mut self, objects: &[u32]) -> Result<(), AllocError> {
        let vars = objects.to_vec(self.alloc)?;
        let mods = objects.to_vec(self.alloc)?;
        self.loops.push(CodeLoop {
            vars: List::new(vars),
            mods: List::new(mods),
        })?;
        Ok(())
    }

    fn next(&mut self) -> u32 {
        self.temps = self.temps.saturating_add(1);
        self.temps
    }

    fn push(&mut self, item: Item) -> Result<(), AllocError> {
        self.items.push(item)?;
        Ok(())
    }

    pub fn live(&mut self, object: u32) -> Result<(), AllocError> {
        let item = emit::live(self.alloc, object)?;
        self.push(item)
    }

    pub fn choice(&mut self, ty: Ty) -> Result<Operand, AllocError> {
        let temp = self.next();
        let item = emit::choice(self.alloc, temp, ty)?;
        self.push(item)?;
        Ok(Operand::Temp(temp))
    }

    pub fn read(&mut self, ty: CellType, address: Operand) -> Result<Operand, AllocError> {
        let temp = self.next();
        let item = emit::read(self.alloc, temp, ty, address)?;
        self.push(item)?;
        Ok(Operand::Temp(temp))
    }

    pub fn write(
        &mut self,
        ty: CellType,
        address: Operand,
        value: Operand,
    ) -> Result<(), AllocError> {
        let item = emit::write(self.alloc, ty, address, value)?;
        self.push(item)
    }

    pub fn operator(
        &mut self,
        operator: Operator,
        ty: Ty,
        left: Operand,
        right: Operand,
    ) -> Result<Operand, AllocError> {
        let temp = self.next();
        let item = emit::operator(self.alloc, temp, operator, ty, left, right)?;
        self.push(item)?;
        Ok(Operand::Temp(temp))
    }

    /// Whether a number of type int isn't 0.
    pub fn truth(&mut self, value: Operand) -> Result<Operand, AllocError> {
        self.operator(Operator::Ne, Ty::INT, value, number(0))
    }

    pub fn convert(&mut self, ty: Ty, from: Operand) -> Result<Operand, AllocError> {
        let temp = self.next();
        let item = emit::convert(self.alloc, temp, ty, from)?;
        self.push(item)?;
        Ok(Operand::Temp(temp))
    }

    /// A pointer, moved by a number of cells.
    pub fn moved(&mut self, pointer: Operand, by: Operand) -> Result<Operand, AllocError> {
        let temp = self.next();
        let item = emit::moved(self.alloc, temp, 1, pointer, by)?;
        self.push(item)?;
        Ok(Operand::Temp(temp))
    }

    /// The next check, of this kind.
    pub fn check(&mut self, kind: Kind, holds: Operand) -> Result<(), AllocError> {
        self.checks.push(CodeCheck {
            kind,
            line: 1,
            col: 1,
        })?;
        self.checked = self.checked.saturating_add(1);
        let item = emit::check(self.alloc, self.checked, holds)?;
        self.push(item)
    }

    /// The next check, of this kind, that a test passes.
    pub fn passes(&mut self, kind: Kind, test: Test) -> Result<(), AllocError> {
        let temp = self.next();
        let item = emit::passes(self.alloc, temp, test)?;
        self.push(item)?;
        self.check(kind, Operand::Temp(temp))
    }

    /// `assert` of a number of type int.
    pub fn assertion(&mut self, value: Operand) -> Result<(), AllocError> {
        let holds = self.truth(value)?;
        self.check(Kind::Assertion, holds)
    }

    /// The checks of an access to an int through a pointer.
    pub fn access(&mut self, pointer: Operand) -> Result<(), AllocError> {
        self.passes(Kind::Null, Test::Null(pointer))?;
        self.passes(Kind::Invalid, Test::Invalid(pointer))?;
        self.passes(Kind::Lifetime, Test::Live(pointer))?;
        self.passes(Kind::Pointer, Test::Cells(1, pointer))
    }

    pub fn unless(&mut self, holds: Operand, blocks: u32) -> Result<(), AllocError> {
        let item = emit::unless(self.alloc, holds, blocks)?;
        self.push(item)
    }

    pub fn goto(&mut self, blocks: u32) -> Result<(), AllocError> {
        let item = emit::goto(self.alloc, blocks)?;
        self.push(item)
    }

    /// The items so far; those that come from now on are the inner ones of a block or a loop.
    pub fn inside(&mut self) -> Vec<Item> {
        let alloc = self.alloc;
        mem::replace(&mut self.items, Vec::new(alloc))
    }

    /// The inner items become a block behind the outer ones.
    pub fn block(&mut self, outer: Vec<Item>) -> Result<(), AllocError> {
        let inner = mem::replace(&mut self.items, outer);
        self.push(emit::block(inner))
    }

    /// The inner items become a loop in a block behind the outer ones.
    pub fn turn(&mut self, number: u32, outer: Vec<Item>) -> Result<(), AllocError> {
        let alloc = self.alloc;
        let inner = mem::replace(&mut self.items, outer);
        let mut items = Vec::new(alloc);
        items.push(emit::turn(number, inner))?;
        self.push(emit::block(items))
    }

    /// The end of main, which these objects leave.
    pub fn end(&mut self, objects: &[u32]) -> Result<(), AllocError> {
        for object in objects {
            let item = emit::dead(self.alloc, *object)?;
            self.push(item)?;
        }
        let item = emit::end(self.alloc)?;
        self.push(item)
    }

    /// The last of the text, `return 0;` where these objects live.
    pub fn leave(&mut self, objects: &[u32]) -> Result<(), AllocError> {
        self.end(objects)?;
        self.end(objects)
    }

    /// The code.
    pub fn code(self) -> Result<Box<Code>, AllocError> {
        let Made {
            alloc,
            objects,
            pointed,
            checks,
            loops,
            temps,
            items,
            ..
        } = self;
        let code = Code {
            objects: List::new(objects),
            pointed: List::new(pointed),
            checks: List::new(checks),
            loops: List::new(loops),
            temps,
            items,
        };
        Ok(Box::new(alloc, code)?)
    }
}
