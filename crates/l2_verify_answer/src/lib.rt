//! What the decision of a text ends with and prints, and the certificate of its answer.
#![tactic(auto)]

mod answering;
mod deciding;
mod domains;
mod laws;
mod verdicts;

pub use answering::{terminate_answer, verify_answer};
pub use laws::{terminated_law, verified_law};
pub use verdicts::Verdict;
