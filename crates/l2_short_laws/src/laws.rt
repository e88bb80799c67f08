//! What holds of a code's equations and its short runs: functions without effect whose contracts are the laws.
ghost use Rattle.l2_short_laws.specs.Shorts.{ShortsSolve};
ghost use Rattle.l2_short_laws.specs.Used.{SolutionsBreak};

/// Where a run that is stopped at a loop entry's arrival past the k-th breaks a check, some values of the names that choices give,
/// which enter each loop, make an event of the check true, in whatever way the equations are then solved.
pub fn shorts_solve()
    ensures { ShortsSolve }
{}

/// Where names solve the equations and an event of a check is true, the values that choices took on true paths, in order, are the
/// choices of a run that breaks the check, stopped at a loop entry's arrival past the k-th as it may be: each is a value of its type,
/// the run uses all of them, and it arrives at heads as often as paths of arrivals are true.
pub fn solutions_break()
    ensures { SolutionsBreak }
{}
