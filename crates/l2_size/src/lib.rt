//! What code weighs when its loops are unwound.
#![tactic(auto)]

mod scale;
mod sizes;
mod tables;

pub use sizes::size;
