//! What holds of the program of every text.
#![tactic(auto)]

mod laws;

pub use laws::thresholds_of_a_text;
