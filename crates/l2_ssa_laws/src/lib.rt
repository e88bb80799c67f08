//! What else holds of a code's equations: where rankings are asked for, and which goals events have.
#![tactic(auto)]

pub mod laws;
