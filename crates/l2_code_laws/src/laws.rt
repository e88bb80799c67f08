//! What holds of every well-formed code: functions without effect whose contracts are the laws.
ghost use Rattle.l2_code_laws.specs.Holding.{NodesHold, LimitsHold, RunsHold};

/// In every run, in each mode over its sets, each cell and each temporary holds a value of its type in its set.
pub fn runs_hold()
    ensures nodes { NodesHold }
    ensures limits { LimitsHold }
    ensures runs { RunsHold }
{}
