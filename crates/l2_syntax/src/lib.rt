//! Places, tokens and refusals: what the crates that read a text hand to one another.
#![tactic(auto)]

mod place;
mod refusal;
#[cfg(test)]
mod tests;
mod token;

pub use place::Place;
pub use refusal::{Refusal, Rule, TextFault};
pub use token::{Mark, Name, Scalar, Token, TokenKind, Tokens};
