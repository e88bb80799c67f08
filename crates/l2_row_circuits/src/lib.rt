//! Rows and rankings as circuits.
#![tactic(auto)]

pub mod laws;
mod rows;

pub use rows::{form_word, lower_bit, row_bit};
