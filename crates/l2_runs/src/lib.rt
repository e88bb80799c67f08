//! Stores, runs, loops and operators on numbers, for whatever executes: a tree or its code.
//! The definitions stand in `specs/`; this crate's code has the types that they and the code above share.
#![tactic(auto)]

mod cells;
mod kind;
mod member;
mod numbers;
mod operators;
mod outcome;

pub use cells::{CellType, CellValue};
pub use kind::Kind;
pub use member::Member;
pub use numbers::index_of;
pub use operators::{BinaryOperator, UnaryOperator};
pub use outcome::Outcome;
