//! Builds the typed tree of what was read from the parts of its constructs, as the definitions of l2_tree say it.
#![tactic(auto)]

mod declarations;
mod declarators;
mod error;
mod expressions;
mod initialisers;
mod made;
mod next;
mod operands;
mod specifiers;
mod starts;
mod types;

pub use declarations::{declaration_of, declared};
pub use declarators::declarator_of;
pub use error::BuildError;
pub use expressions::expr_of;
pub use next::{Next, heads, specifies, split};
pub use specifiers::{Front, specifiers_of};
pub use starts::name_of;
