//! The flat list of code, and its listing.
#![tactic(auto)]

mod counting;
mod flattening;
mod printing;
mod texts;
mod words;

pub use flattening::{Instruction, flat};
pub use printing::listing;
