//! Questions about rows as runs of other points: a row with a greater bound in front of a loop's own, and points without the rows
//! that have no bound.
#![tactic(auto)]

pub mod laws;
