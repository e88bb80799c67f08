//! The lines of certificates fit their programs, where points are of a domain and rankings of candidates.
#![tactic(auto)]

pub mod laws;
