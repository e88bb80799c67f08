//! What operators make of values and of lvalues: the typed tree, the faults, the checks and the objects named.
#![tactic(auto)]

mod effects;
mod values;

pub use effects::{assign, cast, sized, stepped, type_of};
pub use values::{binary, comma, conditional, named, unary, value_of, wrong};
