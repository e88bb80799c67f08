//! The engine that answers, for k = 1, 2, .., what is to be known of a program: whether a short run breaks a check, the strongest
//! point of a domain, whether it proves, and the lists of forms that rank the loops there. Each question is asked of formulas by a new solver.
#![tactic(auto)]

mod engine;
mod points;
mod ranks;
mod short;
mod task;
mod verdicts;

pub use engine::Engine;
pub use task::Task;
pub use verdicts::verdict;
