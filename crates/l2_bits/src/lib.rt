//! The integer types of C, their values, and the operators on them (C11 6.2.5p9, 6.5.5 to 6.5.7).
//! Each operator is defined over the whole numbers; a result that is no value of its type wraps in two's complement.
#![tactic(auto)]

mod bits;
pub mod laws;
mod lists;
mod operators;
#[cfg(test)]
mod tests;
mod types;
mod values;

pub use bits::{and, or, xor};
pub use lists::List;
pub use operators::{Op, add, convert, div, mul, overflows, rem, shl, shr, sub};
pub use types::Ty;
pub use values::{is_value, wrap};
