//! The code's operators on numbers as circuits, with conversions and the tests on numbers.
#![tactic(auto)]

mod checks;
pub mod laws;
mod operators;

pub use checks::{division_bit, index_bit, overflow_bit, shift_bit};
pub use operators::{convert_word, number_word};
