//! Which variable a search decides next: the most active one, with the value that it had last.
#![tactic(auto)]

mod heap;
mod order;

pub use order::Order;
