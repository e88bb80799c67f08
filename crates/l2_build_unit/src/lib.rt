//! Builds the typed tree of a text from the parts of its statements and externals, as the definitions of l2_tree say it.
#![tactic(auto)]

mod branches;
mod loops;
mod made;
mod plain;
mod starts;
mod statements;
mod units;

pub use statements::stmt_of;
pub use units::{external_of, unit_of};
