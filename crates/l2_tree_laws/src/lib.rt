//! What holds of typed trees: each unit and each expression that the grammar reads is built, what is built has the run that it was
//! built from, and tokens spell at most one of them.
#![tactic(auto)]

mod laws;
mod places;
mod specifiers;

pub use laws::{
    expression_back_law, expression_built_law, expression_run_law, unique_run_law, unique_tree_law,
    unit_back_law, unit_built_law, unit_run_law,
};
pub use places::{first_place_law, initialiser_place_law, parameter_place_law, type_place_law};
pub use specifiers::{declaration_type_law, other_type_law, storage_law};
