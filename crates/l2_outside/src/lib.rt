//! The outside of the product, files by name and what takes bytes, as traits with a written meaning.
//!
//! `MemShelf` and `MemSink` stand in memory and tell their content. `FileShelf` and `StdSink` are the edge to the
//! machine and tell none.
#![tactic(auto)]

mod adapters;
mod memory;
#[cfg(test)]
mod tests;
mod traits;
mod write;

pub use adapters::{FileShelf, StdSink};
pub use memory::{MemShelf, MemSink};
pub use traits::{Failed, ReadError, Shelf, Sink, WriteError};
pub use write::write_text;
