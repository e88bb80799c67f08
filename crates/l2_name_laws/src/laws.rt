//! What holds of certificates: functions without effect whose contracts are the laws.
ghost use Rattle.l2_name_laws.specs.Naming.{DomainsFit};

/// The lines of a certificate fit a lawful program, where its point is one of a domain over the program's thresholds, without the rows
/// that have no bound, and its rankings are of candidates.
pub fn names_law()
    ensures { DomainsFit }
{}
