//! Declarations: what their names become known as, what they do where they are reached, and their faults.
#![tactic(auto)]

mod declarations;
mod forms;
mod initialisers;
mod names;
mod parameters;
mod types;

pub use declarations::{declaration, is_builtin, type_definition};
pub use forms::{has_const, start_of_text, type_start};
pub use names::prototype;
pub use parameters::{all_parameters, typed};
pub use types::{DeclaredType, Item, Target};
