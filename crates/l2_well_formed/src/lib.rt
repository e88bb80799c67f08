//! What the tree of a text has, said of the tree alone: each unit that the grammar reads is well formed.
#![tactic(auto)]

mod laws;

pub use laws::well_formed_law;
