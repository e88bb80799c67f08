//! Equations on names as clauses: each name gets a word of literals, bit 0 first, and the circuits of its equation.
#![tactic(auto)]

mod blasting;
mod computing;
mod fill;
mod member_lists;
mod sorts;
mod stepping;
mod words;

pub use blasting::blast;
pub use fill::Fill;
pub use sorts::Sort;
pub use words::Words;
