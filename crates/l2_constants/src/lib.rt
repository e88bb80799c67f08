//! The value of a constant expression, whether evaluating it breaks a check, or that it is none.
#![tactic(auto)]

mod constants;

pub use constants::{Folded, fold};
