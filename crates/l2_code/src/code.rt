use crate::action::Action;
use l2_bits::List;
use l2_runs::{CellType, CellValue, Kind};

/// A part of code: an instruction; items that a jump leaves, to behind them; or a loop by its number, which jumps alone leave.
#[derive(Drop)]
pub enum Item {
    Do(Box<Action>),
    Block(Vec<Item>),
    Loop(u32, Vec<Item>),
}

/// An object: its name (`-` where it is hidden), the types of its cells, and what each holds at the start.
#[derive(Debug, Drop)]
pub struct CodeObject {
    pub name: List<u8>,
    pub is_static: bool,
    pub hidden: bool,
    pub cells: List<CellType>,
    pub start: List<CellValue>,
}

/// A type that a pointer points to, by the types of its cells.
#[derive(Debug, Drop)]
pub struct Pointed {
    pub cells: List<CellType>,
}

/// A check: its kind, and the line and column where it stands in the text.
#[derive(Clone, Copy, Debug, PartialEq, Eq)]
pub struct CodeCheck {
    pub kind: Kind,
    pub line: u32,
    pub col: u32,
}

/// A loop: the objects that rows may speak of, and those that the loop may change, hidden ones too, in rising order.
#[derive(Debug, Drop)]
pub struct CodeLoop {
    pub vars: List<u32>,
    pub mods: List<u32>,
}

/// Code. Objects, pointed types, checks, loops and temporaries are numbered from 1; `temps` is how many temporaries there are.
#[derive(Drop)]
pub struct Code {
    pub objects: List<CodeObject>,
    pub pointed: List<Pointed>,
    pub checks: List<CodeCheck>,
    pub loops: List<CodeLoop>,
    pub temps: u32,
    pub items: Vec<Item>,
}
