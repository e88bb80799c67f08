//! Derivation files: the steps of a derivation as a text.
//!
//! The lines are `2ls derivation 1`, `lines N`, the N steps and `end`. Each ends with its LF, the words of a line are parted
//! by one space, and numbers have one spelling. A step is its number, its literals, `0`, its hints and `0`.
#![tactic(auto)]

mod reader;
mod reading;
mod steps;
mod words;
mod writer;

pub use reader::{FileError, read};
pub use writer::write;
