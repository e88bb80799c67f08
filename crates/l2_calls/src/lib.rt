//! Calls of functions and of built-in names, when their arguments are known.
#![tactic(auto)]

mod calls;

pub use calls::{called, callee, fails, fitted, is_literal};
