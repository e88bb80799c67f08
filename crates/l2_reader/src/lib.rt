//! Reads the tokens of a text to its tree within the limits, exactly as the grammar says.
#![tactic(auto)]

mod error;
mod expressions;
mod limits;
mod reader;
mod stack;
mod steps;
mod syntax;

pub use error::{ParseError, ReadError};
pub use expressions::expression;
pub use reader::{Progress, read};
pub use stack::{Counts, Stack};
pub use syntax::{Open, Syntax};
