//! What a walk over unwound code makes of a label at which jumps arrive, of the head of a loop, and of the end of a turn.
#![tactic(auto)]

mod heads;
mod merges;

pub use heads::{end_turn, start_back};
pub use merges::label;
