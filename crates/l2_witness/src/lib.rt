//! The values file: the choices and the turns that make an execution.
//!
//! Its lines are `2ls values 1`, `turns N`, any number of `choice V`, and `end`. Each ends with its LF, and words are
//! parted by one space.
#![tactic(auto)]

mod read;
mod reading;
mod values;
mod write;

pub use read::read_values;
pub use values::{Values, ValuesError};
pub use write::write_values;
