//! A session whose clauses grow by circuits: each is made behind the variables that there are.
#![tactic(auto)]

mod growing;

pub use growing::{Growing, is_true};
