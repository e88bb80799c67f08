//! How the loops of a program are printed.
#![tactic(auto)]

mod printing;

pub use printing::{loops_text, push_object};
