//! What declarators and specifiers say: the name and the parameters that a declarator gives, the type and the storage that specifiers
//! name, and where the parts of a tree begin.
#![tactic(auto)]

mod declarators;
mod laws;
mod places;
mod specifiers;

pub use declarators::{DeclaredName, Round, name_of, nearest, parameters_of};
pub use laws::{base_place_law, name_law, name_token_law};
pub use places::{first_place, initialiser_place};
pub use specifiers::{BaseType, NumberWords, base_of, base_place, storage_of};
