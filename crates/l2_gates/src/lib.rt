//! Gates: clauses that define a new variable by those before it, or a literal that is there already.
#![tactic(auto)]

mod gates;
pub mod laws;

pub use gates::Gates;
