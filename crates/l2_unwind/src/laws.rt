//! What holds of unwound code: functions without effect whose contracts are the laws.
ghost use Rattle.l2_unwind.specs.Law.{RunsAreCutRuns, SizesAreWeights};

/// The runs of unwound code are the cut runs of the code.
pub fn unwound_runs()
    ensures { RunsAreCutRuns }
{}

/// The weight of a code at k is the sum of the weights of its instructions, each as often as it stands in the unwound code.
pub fn unwound_weights()
    ensures { SizesAreWeights }
{}
