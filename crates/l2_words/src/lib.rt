//! What the words behind the program's name ask for, as `clap` cuts them into operands and options.
#![tactic(auto)]

mod line;
mod request;
mod values;

pub use line::command;
pub use request::{Deciding, DomainName, Request, View, WordsError};
