//! Certificate files of points that prove.
#![tactic(auto)]

mod files;

pub use files::safe_file;
