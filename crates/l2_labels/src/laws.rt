//! What holds of code whose labels are merged: functions without effect whose contracts are the laws.
ghost use Rattle.l2_labels.specs.Law.{RunsAlike, StaysWellFormed, StaysResolved, WeighsAlike};

/// It does what the code does.
pub fn runs_alike()
    ensures { RunsAlike }
{}

/// It is well formed where the code is.
pub fn stays_well_formed()
    ensures { StaysWellFormed }
{}

/// Sets with which the code may be resolved are such of it.
pub fn stays_resolved()
    ensures { StaysResolved }
{}

/// It weighs what the code does.
pub fn weighs_alike()
    ensures { WeighsAlike }
{}
