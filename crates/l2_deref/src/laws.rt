//! What holds of every resolved code: functions without effect whose contracts are the laws.
ghost use Rattle.l2_deref.specs.Law.{CandidatesHold, RunsAlike};

/// Wherever temporaries hold values in their sets, reads and writes act at their candidates alone.
pub fn candidates_hold()
    ensures { CandidatesHold }
{}

/// Resolved code does what the code does, in every mode and under any tests, though its reads and writes look among their
/// candidates alone.
pub fn runs_alike()
    ensures { RunsAlike }
{}
