//! Invariants by templates: linear forms over the variables of a loop, points that bound them, rankings, and the
//! domains that say which forms and bounds are tried.
#![tactic(auto)]

mod domain;
mod families;
mod form;
mod infer;
pub mod laws;
mod lists;
mod meets;
mod point;

pub use domain::{Domain, Equalities, Intervals, NoRows, Octagons, Zones};
pub use families::Family;
pub use form::{Form, Row, lower_than, row_value, stands_before};
pub use infer::{Found, Halt, Infer};
pub use lists::{Point, Ranks, RowList};
pub use meets::meet;
pub use point::{LoopPoint, bounded, holds};
