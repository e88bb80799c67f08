//! What holds of goals that are asked for: functions without effect whose contracts are the laws.
ghost use Rattle.l2_asked_goals.specs.Law.{BaseIsMade, EventsShow, GoalsAreRuns, ProgramsAreAskable, RowLiteralsSay};

use l2_blast_laws::laws::{
    agreed_show_same, blasting_makes_behind, models_solve_behind, open_rows_have_models,
};
use l2_given_steps::laws::choices_match;
use l2_goal_laws::laws::fills_mean;
use l2_grown_laws::laws::grown_law;
use l2_ssa::laws::steps_in_order;
use l2_typed_steps::laws::steps_are_typed;

/// Where rows are as a point says, a goal with a true event is missed by some run of the point; and where some run misses one, some
/// model shows it, whatever was made later.
pub fn goals_are_runs()
    ensures { GoalsAreRuns }
{
    steps_in_order();
    steps_are_typed();
    choices_match();
    models_solve_behind();
    open_rows_have_models();
    blasting_makes_behind();
    agreed_show_same();
    grown_law();
}

/// The literals of rows are made behind what there is, and say what they are to say; those of events show them. The equations
/// themselves are made.
pub fn literals_say()
    ensures rows { RowLiteralsSay }
    ensures events { EventsShow }
    ensures base { BaseIsMade }
{
    steps_in_order();
    steps_are_typed();
    fills_mean();
}

/// The code of a lawful program, with one label at each place, may be asked about.
pub fn programs_are_askable()
    ensures { ProgramsAreAskable }
{
    l2_lower::laws::code_is_well_formed();
    l2_lower::laws::code_does_what_its_program_does();
    l2_direct_code::laws::code_is_direct();
    l2_direct_code::laws::stays_direct();
    l2_labels::laws::runs_alike();
    l2_labels::laws::stays_well_formed();
    l2_labels::laws::stays_resolved();
    l2_cut_code::laws::points_on_code();
}
