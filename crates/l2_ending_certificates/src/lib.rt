//! Certificate files of rankings at points.
#![tactic(auto)]

mod files;
mod over;

pub use files::terminating_file;
