//! Types of integers, typed expressions, and what is known and found while a text is looked at.
#![tactic(auto)]

mod error;
mod make;
mod meant;
mod operators;
mod state;
mod table;
mod typed;
mod types;

pub use error::CheckError;
pub use make::{converted, integer, size_of};
pub use meant::{Meant, Operand};
pub use operators::{
    Assigning, Class, assignment_of, can_overflow, class_of, defined_kind, step_of,
};
pub use state::{
    Builtin, Callable, Callee, CheckSite, Entry, Linked, LoopEntry, Meaning, Named, ObjectEntry,
    Signature, Site, TagEntry, Want,
};
pub use table::{Found, Outer, Scope, Table};
pub use typed::{Arithmetic, Checks, Comparison, Gives, Junction, Lvalue, Negation, Typed};
pub use types::{CType, common, promoted, type_of_scalar};
