//! Code: what a program becomes before its formula is made. Code is structured: blocks that a jump leaves by their depth, and loops;
//! the flat list with numbers and labels is a function of it.
//! The definitions of `specs/` say what code does, when it is well formed, which sets of pointers are closed over it, and what it weighs.
#![tactic(auto)]

mod action;
mod code;
pub mod emit;
mod sets;

pub use action::{Action, Computation, Operand, Operator, PointerOperator, Test};
pub use code::{Code, CodeCheck, CodeLoop, CodeObject, Item, Pointed};
pub use sets::{PointsTo, Sets};
