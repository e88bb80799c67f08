//! k-induction over any engine that answers, for k = 1, 2, .., what is known of a program where its loops are unwound k
//! times: the first k that has an answer.
#![tactic(auto)]

mod deciding;
mod decision;

pub use deciding::decide;
pub use decision::{Decision, Mode};
