//! What holds of the grown equations: functions without effect whose contracts are the laws.
ghost use Rattle.l2_grown_laws.specs.Law.{GrownRuns, QuestionsAreRuns};

use l2_front_laws::laws::{bottom_law, raised_law};
use l2_renumber_laws::laws::front_law;
use l2_ssa::laws::solutions_run;
use l2_ssa_laws::laws::{events_named, runs_enter};

/// In the solutions by what a point says, a row's event is true exactly where some run of the point fails the row, whose number is one
/// less, and so of checks. An event of a question is true in some solution exactly where the run that it asks for exists.
pub fn grown_law()
    ensures runs { GrownRuns }
    ensures questions { QuestionsAreRuns }
{
    solutions_run();
    runs_enter();
    events_named();
    front_law();
    raised_law();
    bottom_law();
}
