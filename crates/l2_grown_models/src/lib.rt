//! Models of the clauses of grown equations, and the questions about cut runs that they answer.
#![tactic(auto)]

pub mod laws;
