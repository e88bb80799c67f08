use l2_bits::List;
use l2_cnf::Lines;
use l2_templates::{Point, Ranks};
use thiserror::Error;

/// What a certificate shows of a program.
#[derive(Clone, Copy, Debug, PartialEq, Eq)]
pub enum CertKind {
    /// No execution breaks a check.
    Safe,
    /// Every execution ends.
    Terminating,
}

/// What a certificate file tells.
#[derive(Drop)]
pub struct Cert {
    pub kind: CertKind,
    /// Whether overflow of signed operators is a check.
    pub overflow: bool,
    /// How many copies of a loop's body are looked at, from 1 to 64.
    pub k: u32,
    /// For each loop what holds at its head.
    pub point: Point,
    /// For each loop its ranking, in a certificate of termination; empty in one of safety.
    pub ranks: Ranks,
    /// For each goal the steps of its derivation.
    pub goals: List<Lines>,
}

/// Why bytes were not read as a certificate.
#[derive(Clone, Copy, Debug, PartialEq, Eq, Error)]
pub enum CertError {
    /// No certificate has this line after those before it. Lines are counted from 1, and where the text ends too early
    /// the line is one past its last.
    #[error("line {line} is in no certificate")]
    BadLine { line: u64 },
    #[error("out of memory")]
    NoMemory,
}
