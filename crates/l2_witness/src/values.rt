use l2_bits::List;
use thiserror::Error;

/// What a values file tells: how many turns an execution may take, and the choices it takes in order.
#[derive(Debug, Drop)]
pub struct Values {
    /// From 0 to 100,000,000.
    pub turns: u64,
    /// Each from -2^63 to 2^64 - 1.
    pub choices: List<i128>,
}

/// Why bytes were not read as a values file.
#[derive(Clone, Copy, Debug, PartialEq, Eq, Error)]
pub enum ValuesError {
    /// No values file has this line after those before it. Lines are counted from 1, and where the text ends too early
    /// the line is one past its last.
    #[error("line {line} is in no values file")]
    BadLine { line: u64 },
    #[error("out of memory")]
    NoMemory,
}
