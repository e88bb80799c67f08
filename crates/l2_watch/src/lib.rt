//! Clauses that are watched by two of their literals, and unit propagation over them.
#![tactic(auto)]

mod attach;
mod board;
mod entry;
mod history;
mod looks;
mod raise;
mod visit;

pub use attach::greatest;
pub use board::Watch;
