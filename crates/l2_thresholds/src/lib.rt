//! The bounds that rows of an invariant may take: numbers near the constants of a text.
#![tactic(auto)]

mod bounds;
mod constants;
mod laws;
mod near;

pub use bounds::thresholds;
pub use laws::thresholds_rise;
