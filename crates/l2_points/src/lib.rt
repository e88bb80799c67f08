//! What each pointer of a code may be: the least sets that are closed over it.
#![tactic(auto)]

mod answer;
mod gather;

pub use answer::points;
