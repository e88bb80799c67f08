//! The grammar's networks as functions: what a construct does at a token, what may stand in it, and what a whole one is.
#![tactic(auto)]

mod marks;
mod nesting;
mod networks;
mod telling;

pub use marks::is;
pub use nesting::{on_child, opens, outcome, stands};
pub use networks::{applied, indexed, on_token};
pub use telling::only;
