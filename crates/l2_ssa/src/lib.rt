//! Code as equations on names, whose solutions are its cut runs.
#![tactic(auto)]

mod equations;
mod goal;
pub mod laws;
mod step;

pub use equations::Ssa;
pub use goal::{Event, Goal, Kind};
pub use step::{
    AliveStep, AmongStep, ApartStep, ComputeStep, Flag, LowerStep, MergeStep, PathStep, PickStep,
    PointStep, RowStep, Step, TakeStep,
};
