//! Reads one full expression of a text: its tree and where it ends, or where reading stops.
#![tactic(auto)]

mod built;
mod reading;

pub use l2_grammar::Level;
pub use reading::expression;
