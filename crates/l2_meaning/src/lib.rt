//! What a program does: the meaning of trees, execution, lawful programs, and what it is to be safe.
//! The definitions stand in `specs/`.
#![tactic(auto)]

pub mod laws;
mod sets;

pub use sets::LoopSets;
