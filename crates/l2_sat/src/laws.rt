ghost use Rattle.l2_sat.specs.Laws.{SolveLaw, StatusLaw};

/// Statuses 3 and 4 come for faults of writing and want of memory alone.
pub fn statuses()
    ensures { StatusLaw }
{}

/// What `solve` says of a file of the profile.
pub fn solve_law()
    ensures { SolveLaw }
{}
