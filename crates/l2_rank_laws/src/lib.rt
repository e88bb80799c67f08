//! Laws of greedy lists of forms: that they are those of a program where an engine tells of its turns, and what it means that a
//! loop has none. They are functions without effect whose contracts are the laws.
#![tactic(auto)]

pub mod laws;
