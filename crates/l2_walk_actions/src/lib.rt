//! What a walk over unwound code makes of a single instruction.
#![tactic(auto)]

mod actions;

pub use actions::act;
