//! How a run ends: its status, and what is printed; what is said of a text that is refused.
#![tactic(auto)]

mod line;
mod status;
mod text_answer;

pub use line::{place_text, push_number, refusal_line};
pub use status::{Answer, Status, fixed};
pub use text_answer::refused;
