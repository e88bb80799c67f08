//! From a text to its program and its code.
#![tactic(auto)]

mod loading;
mod program;

pub use loading::{Loaded, load};
pub use program::program_of;
