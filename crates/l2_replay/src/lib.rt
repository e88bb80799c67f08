//! Executes a program on given choices and turns, as its meaning says.
#![tactic(auto)]

mod answer;
mod expressions;
mod machine;
mod operators;
mod replay_program;
mod start;
mod statements;

pub use answer::Replay;
pub use replay_program::replay;
