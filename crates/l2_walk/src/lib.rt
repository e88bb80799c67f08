//! The walk over unwound code that gives its equations.
#![tactic(auto)]

mod equations;
mod nodes;

pub use equations::walk;
