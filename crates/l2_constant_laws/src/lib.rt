//! What holds of the constants of every text, and of its thresholds.
#![tactic(auto)]

mod laws;

pub use laws::{constants_law, thresholds_law};
