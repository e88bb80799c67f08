//! How an answer is printed.
#![tactic(auto)]

mod forms;
mod points;
mod verdicts;

pub use verdicts::{safe_text, size_text, terminating_text, unsafe_text, unwind_text};
