//! What holds of a code's equations: functions without effect whose contracts are the laws.
ghost use Rattle.l2_ssa.specs.Law.{SolutionsRun, RunsSolve, StepsInOrder};

/// Where names solve the equations of a well-formed code over its sets and an event is true, some cut run of the code ends at that event.
pub fn solutions_run()
    ensures { SolutionsRun }
{}

/// Where a cut run fails, some values of the names that choices give make an event of that end true, in whatever way the equations
/// are then solved.
pub fn runs_solve()
    ensures { RunsSolve }
{}

/// Each equation reads constants and names before its own, and events name equations.
pub fn steps_in_order()
    ensures { StepsInOrder }
{}
