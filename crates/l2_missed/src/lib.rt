//! Which of several clauses can be met together with clauses that all of them share.
#![tactic(auto)]

mod shared;

pub use shared::{Met, Shared};
