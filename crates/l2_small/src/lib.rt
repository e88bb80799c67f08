//! The small form of C: which texts of the whole grammar are of it, and the tree of such a text.
#![tactic(auto)]

mod declarations;
mod error;
mod expressions;
mod make;
mod operators;
mod statements;
mod tree;
mod units;
mod words;

pub use error::SmallError;
pub use tree::{SmallExpr, SmallStmt, SmallUnit};
pub use units::small;
