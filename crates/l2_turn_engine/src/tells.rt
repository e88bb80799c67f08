ghost use Rattle.l2_turn_engine.specs.Telling.{MovesTell, NoneAtBottom, StaysTell};

use l2_goal_laws::laws::{fills_mean, turns_are_runs};
use l2_lower::laws::code_is_well_formed;

/// Formulas of a program's code tell what forms do on the turns of its loops.
pub fn turns_tell()
    ensures moves { MovesTell }
    ensures stays { StaysTell }
{
    turns_are_runs();
    fills_mean();
    code_is_well_formed();
}

/// A loop at Bottom has no turn that counts.
pub fn none_at_bottom()
    ensures { NoneAtBottom }
{}
