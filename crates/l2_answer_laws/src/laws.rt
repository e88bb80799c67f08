ghost use Rattle.l2_answer_laws.specs.Law.{DecidedLaw};

/// Where no fault comes and memory isn't wanting, a run of `verify` or `termination` ends, prints and stores as the decision of its text
/// says.
pub fn decided_law()
    ensures { DecidedLaw }
{}
