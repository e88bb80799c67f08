//! The certificate file, version 1: what `verify` and `termination` write, and what `check` reads.
//!
//! Each line ends with its LF, and the words of a line are parted by one space. Whole numbers have one spelling.
#![tactic(auto)]

mod cert;
mod forms;
mod goals;
mod lines;
mod loops;
mod reader;
mod reading;
mod steps;
mod words;
mod writer;

pub use cert::{Cert, CertError, CertKind};
pub use reader::read;
pub use writer::write;
