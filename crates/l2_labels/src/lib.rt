//! Code with one label at each place: a block that ends where the block round it ends is no block of its own.
#![tactic(auto)]

mod copies;
mod labels;
pub mod laws;

pub use labels::one_label;
