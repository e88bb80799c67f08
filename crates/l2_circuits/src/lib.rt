//! Words as circuits: lists of literals, bit 0 first.
#![tactic(auto)]

mod columns;
mod literals;
mod products;
mod shifts;
mod words;

pub use columns::{Kind, Total};
pub use literals::{constant, extended, falsity, negated, resized, truth, truth_word, zeros};
pub use products::{Quotient, mul, quotients};
pub use shifts::{shift_left, shift_right};
pub use words::{ands, choose, convert, eq, less, less_equal, lts, ltu, ors, sub, sum, xors};
