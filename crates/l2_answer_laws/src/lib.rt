//! What answers must be where no fault comes: a law without code.
#![tactic(auto)]

mod laws;

pub use laws::decided_law;
