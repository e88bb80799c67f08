//! Unwinding: code with k copies of each loop's turn, whose runs are the cut runs of the code.
#![tactic(auto)]

mod flat;
pub mod laws;

pub use flat::{Flat, UnwindError, unwind};
