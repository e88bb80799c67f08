//! The code of a program: what it is, that it does what the program does, and the function that gives it.
//! The definitions stand in `specs/`.
#![tactic(auto)]

mod emitter;
mod error;
mod expressions;
pub mod laws;
mod lowering;
mod mains;
mod operands;
mod statements;
mod tables;

pub use error::LowerError;
pub use lowering::lower;
