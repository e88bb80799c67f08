//! The strongest point of a domain that infers, by questions to an engine: it begins with Bottom everywhere and raises what
//! some run fails, by binary search over the bounds.
#![tactic(auto)]

mod asks;
mod places;
mod search;

pub use asks::{Asks, BrokenRow};
pub use search::strongest;
