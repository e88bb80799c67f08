use crate::checked::Checked;
use l2_bits::List;
use l2_runs::{CellType, CellValue, Kind};
use l2_syntax::{Name, Place};

/// A variable or parameter: its name's number and place, its cells in order, whether its storage is static, and its function (0 for file scope).
#[derive(Debug, Drop)]
pub struct ObjectInfo {
    pub name: u32,
    pub place: Place,
    pub cells: List<CellType>,
    pub is_static: bool,
    pub function: u32,
}

/// A function: its name's number and place, the objects of its parameters, the cells of its result (none for `void`), and its body.
#[derive(Drop)]
pub struct FunctionInfo {
    pub name: u32,
    pub place: Place,
    pub parameters: List<u32>,
    pub result: List<CellType>,
    pub body: Checked,
}

/// A loop: the place of its keyword, its function, the objects that it may change, and the objects of one integer cell that its rows may speak of.
#[derive(Debug, Drop)]
pub struct LoopInfo {
    pub place: Place,
    pub function: u32,
    pub mods: List<u32>,
    pub vars: List<u32>,
}

/// A check: its place and its kind.
#[derive(Clone, Copy, Debug, PartialEq, Eq)]
pub struct CheckInfo {
    pub place: Place,
    pub kind: Kind,
}

/// What a cell of a static object holds at the start.
#[derive(Clone, Copy, Debug, PartialEq, Eq)]
pub struct StaticValue {
    pub object: u32,
    pub offset: u32,
    pub value: CellValue,
}

/// A program. Objects, functions, loops and checks are numbered from 1 in the order of these lists; names from 0.
#[derive(Drop)]
pub struct Program {
    pub objects: List<ObjectInfo>,
    pub functions: List<FunctionInfo>,
    pub loops: List<LoopInfo>,
    pub checks: List<CheckInfo>,
    pub names: List<Name>,
    pub static_values: List<StaticValue>,
    pub thresholds: List<i128>,
}
