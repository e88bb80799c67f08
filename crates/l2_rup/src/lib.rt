//! A checker of steps by reverse unit propagation with hints.
#![tactic(auto)]

mod checker;
mod held;
mod hints;
mod known;

pub use checker::{Checker, StepError};
