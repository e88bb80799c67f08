//! How many bytes a file that a command reads may have.
#![tactic(auto)]

/// The most bytes of a C text.
pub const TEXT_LIMIT: u64 = 1_048_576;

/// The most bytes of a values file, or of a certificate.
pub const FILE_LIMIT: u64 = 67_108_864;
