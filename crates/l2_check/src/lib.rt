//! Whether a certificate is accepted for a program, and so its verdict true of it.
#![tactic(auto)]

mod checking;
pub mod laws;

pub use checking::{Accepted, CheckError, check, check_at};
pub use l2_derivations::{Gate, NoGate};
