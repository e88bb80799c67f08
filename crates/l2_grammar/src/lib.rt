//! The grammar of the language (C11 6.5 to 6.9) as networks, the tree of a text, and what reading is, with the laws of reading.
#![tactic(auto)]

mod laws;
mod states;

pub use laws::{
    expression_law, expression_nesting_law, expression_syntax_law, nesting_law, read_law, stop_law,
    syntax_law, unique_law, within_law,
};
pub use states::{
    Core, Items, Length, Level, Named, Naming, Outcome, Right, Shape, Sort, State, Storage,
};
