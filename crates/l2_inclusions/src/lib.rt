//! The least sets that keep inclusions.
#![tactic(auto)]

mod build;
mod closed;
mod graph;
mod inclusion;
mod members;
mod order;
mod reach;
mod rows;
mod settle;
mod solve;
mod unions;

pub use inclusion::{Inclusion, object_node};
pub use rows::Rows;
pub use solve::least;
