//! The typed form of a text, or the fault by which it is refused.
#![tactic(auto)]

mod calls;
mod checks;
mod defined;
mod external;
mod faults;
mod unit;
mod words;

pub use external::TypedFunction;
pub use unit::{TypedUnit, check};
