//! Reads the tokens of a text to the unit that they spell, or to where reading stops.
#![tactic(auto)]

mod built;
mod copies;
mod laws;
mod refusals;
mod unit;

pub use copies::kept;
pub use laws::{refused_law, unique_refusal_law, unique_unit_law};
pub use refusals::last_place;
pub use unit::parse;
