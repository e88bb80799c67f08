//! A conversation with a solver about clauses that only grow.
#![tactic(auto)]

pub mod laws;
mod session;

pub use session::Session;
