//! Code resolved with closed sets of pointers: at which cells each read and write may act.
#![tactic(auto)]

mod candidate;
pub mod laws;
mod resolved;

pub use candidate::Candidate;
pub use resolved::{Resolved, deref};
