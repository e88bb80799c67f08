//! What holds of a program and the equations of its short runs: functions without effect whose contracts are the laws.
ghost use Rattle.l2_found_laws.specs.Found.{SolutionsFind, ShortsFound, TurnsFew};

/// Where names solve the equations of a program's code and an event of a check is true, the program's execution on the choices and
/// turns of the solution breaks the check and uses all of both, and so does the short run on these choices. Each is a value of its
/// type.
pub fn solutions_find()
    ensures { SolutionsFind }
{}

/// Where a short run of a program breaks a check, some values of the names that choices give make an event of the check true, in
/// whatever way the equations are then solved.
pub fn shorts_found()
    ensures { ShortsFound }
{}

/// The turns of a solution are at most what the code weighs with so many copies of each turn.
pub fn turns_few()
    ensures { TurnsFew }
{}
