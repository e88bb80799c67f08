//! What holds of the definitions: functions without effect whose contracts are the laws.
ghost use Rattle.l2_fitting.specs.Said.{AreLines};

/// What is said line by line are the lines of the file before its goals.
pub fn lines_law()
    ensures { AreLines }
{}
