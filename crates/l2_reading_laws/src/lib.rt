//! What holds of reading one expression of a text: it is refused in one way, and what is read is not refused.
#![tactic(auto)]

mod laws;

pub use laws::{expression_read_law, expression_refused_law, unique_expression_refusal_law};
