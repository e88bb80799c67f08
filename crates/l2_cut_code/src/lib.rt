//! Cut runs of a program at a point are the cut runs of its code at that point.
#![tactic(auto)]

pub mod laws;
