//! What the words behind the program's name ask for, of the commands that are built, and the files that this reads.
#![tactic(auto)]

mod asking;
mod request;

pub use asking::command;
pub use request::{Request, certificate_file, text, values_file};
