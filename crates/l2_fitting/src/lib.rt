//! Whether the lines of a certificate fit a program: they name its loops, the variables of these and its constants.
#![tactic(auto)]

mod fitting;
pub mod laws;
mod passing;

pub use passing::{NameError, check_names};
