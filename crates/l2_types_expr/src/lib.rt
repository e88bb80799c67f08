//! What an expression on integers stands for, with its faults, its checks, its calls and the objects that it names.
#![tactic(auto)]

mod enumerators;
mod judging;
mod type_names;

pub use judging::{constant, judge, specified};
pub use type_names::{BaseName, NamedType};
