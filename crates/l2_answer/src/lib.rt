//! What the program answers: the status and the line of each request, by the words and the files.
#![tactic(auto)]

mod answering;
mod deciding;
mod generate_answer;
mod laws;
mod line;
mod replay_answer;
mod replay_status;
mod show_answer;
mod told;
mod unread;

pub use answering::answer;
pub use laws::{checked_law, status_law, terminated_law, verified_law};
pub use told::{Stored, Told};
