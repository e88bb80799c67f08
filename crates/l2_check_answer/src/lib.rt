//! What the check of a certificate against a text ends with and prints.
#![tactic(auto)]

mod answering;
mod laws;
mod line;

pub use answering::check_answer;
pub use laws::accepted_law;
