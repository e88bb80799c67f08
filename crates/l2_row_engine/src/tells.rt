ghost use Rattle.l2_row_engine.specs.Telling.{GoalsTell};

use l2_goal_laws::laws::{formulas_are_runs, runs_are_listed};

/// The formulas of a program's code tell which rows its cut runs fail, and which checks they break.
pub fn goals_tell()
    ensures { GoalsTell }
{
    formulas_are_runs();
    runs_are_listed();
}
