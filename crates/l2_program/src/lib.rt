//! Programs after checking: their trees, their lists of objects, functions, loops and checks.
#![tactic(auto)]

mod checked;
mod program;

pub use checked::{Checked, Lvalue, Typed};
pub use program::{CheckInfo, FunctionInfo, LoopInfo, ObjectInfo, Program, StaticValue};
