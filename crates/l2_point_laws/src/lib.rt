//! Laws of points: what runs come to at a point and at stronger ones, and which rankings the greedy lists are.
//! They are functions without effect whose contracts are the laws.
#![tactic(auto)]

pub mod laws;
