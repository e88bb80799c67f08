//! Pointers as circuits: words of 34 bits, 17 for the selector and then 17 for the offset.
#![tactic(auto)]

mod checks;
pub mod laws;
mod words;

pub use checks::{Flag, among_bit, cells_bit, isnt_bit, live_bit, move_bit, same_bit};
pub use words::{at_bit, moved_word, operator_word, pick_word, pointer_word};
