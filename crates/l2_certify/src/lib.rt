//! Certificates: the steps that refute each goal of a code at a point, with what a file tells besides.
#![tactic(auto)]

mod certifying;
mod spelling;

pub use certifying::{certify_safe, certify_terminating};
