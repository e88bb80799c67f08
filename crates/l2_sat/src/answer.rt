use crate::status::SatStatus;

/// A file that is to be written.
#[derive(Drop)]
pub struct Written<'a> {
    pub name: &'a str,
    pub bytes: Vec<u8>,
}

/// What a run ends with, prints and writes, but for faults of writing.
#[derive(Drop)]
pub struct Answer<'a> {
    pub status: SatStatus,
    /// What is printed: whole lines, each with its LF.
    pub output: Vec<u8>,
    pub written: Option<Written<'a>>,
}
