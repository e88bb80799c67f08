//! Files that are read whole, in their order, each within its limit.
#![tactic(auto)]

mod input;
mod read;

pub use input::{Input, InputError};
pub use read::{read_one, read_two};
