//! Makes the program of a unit of the small form: resolves its names and numbers its objects, loops and checks.
#![tactic(auto)]

mod entry;
mod error;
mod expressions;
mod found;
mod laws;
mod make;
mod named;
mod statements;
mod table;
mod unit;

pub use entry::Entry;
pub use error::CheckError;
pub use laws::{names_are_declared_once, programs_are_lawful, programs_say_what_texts_say};
pub use unit::check;
