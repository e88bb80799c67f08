//! The tokens of a text, with their places: words, type names, constants, string literals and marks.
#![tactic(auto)]

mod known;
mod laws;
mod lexing;
mod marks;
mod state;

pub use laws::tokens_law;
pub use lexing::tokens;
