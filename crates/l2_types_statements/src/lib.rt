//! Statements with their types, and their faults.
#![tactic(auto)]

mod checked;
mod made;
mod parts;
mod settings;
mod statements;

pub use checked::{Arm, Cases, Checked, Setting};
pub use statements::items;
