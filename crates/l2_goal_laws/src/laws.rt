//! What holds of formulas: functions without effect whose contracts are the laws.
ghost use Rattle.l2_goal_laws.specs.Below.{Below, Laws, Runs};
ghost use Rattle.l2_goal_laws.specs.Filling.{FillsAreMade, FillsMean};
ghost use Rattle.l2_goal_laws.specs.Models.{ModelsAreSolutions, SuppliesAreSolutions};
ghost use Rattle.l2_goal_laws.specs.Law.{FormulasAreRuns, TurnsAreRuns, RunsAreListed, PointsProve, RanksProve};

use l2_circuit_laws::making::constants_are_below;
use l2_circuit_laws::shows::constants_show;
use l2_row_circuits::laws::{ranks_are, rows_are, rows_are_made};

/// What a point fills the steps of rows and rankings with is made, and gives what the point says.
pub fn fills_mean()
    ensures made { FillsAreMade }
    ensures mean { FillsMean }
{
    constants_are_below();
    constants_show();
    rows_are();
    ranks_are();
    rows_are_made();
}

/// What holds of equations and their clauses.
fn below()
    ensures { Below }
{
    l2_ssa::laws::steps_in_order();
    l2_typed_steps::laws::steps_are_typed();
    l2_given_steps::laws::choices_match();
    l2_blast_laws::laws::choices_have_models();
    l2_blast_laws::laws::models_solve();
    l2_blast_laws::laws::fills_hold();
    l2_blast_laws::laws::literals_show();
}

/// What holds of equations and runs.
fn runs()
    ensures { Runs }
{
    l2_ssa::laws::solutions_run();
    l2_ssa_laws::laws::runs_enter();
    l2_ssa_laws::laws::rows_run();
    l2_ssa_laws::laws::ranks_run();
    l2_ssa_laws::laws::runs_fall();
    l2_ssa_laws::laws::none_watched();
    l2_ssa_laws::laws::events_named();
    l2_ssa_points::laws::points_test();
}

/// What holds of programs and their code.
fn programs()
    ensures { Laws }
{
    below();
    runs();
    fills_mean();
    l2_lower::laws::code_is_well_formed();
    l2_lower::laws::code_does_what_its_program_does();
    l2_lower::laws::code_has_the_sets_of_its_program();
    l2_direct_code::laws::code_is_direct();
    l2_direct_code::laws::stays_direct();
    l2_labels::laws::runs_alike();
    l2_labels::laws::stays_well_formed();
    l2_labels::laws::stays_resolved();
    l2_cut_code::laws::points_on_code();
    l2_cut_laws::laws::cut_law();
    l2_cut_laws::laws::turn_bound();
}

/// In each model of a goal the words show a solution of the equations in which an event of the goal is true, whatever fills the steps
/// of rows and rankings.
pub fn models_are_solutions()
    ensures { ModelsAreSolutions }
{
    below();
}

/// Each supply that enters the loops without back starts has a solution that matches it, and a model of each goal that has an event
/// which is true in it.
pub fn supplies_are_solutions()
    ensures { SuppliesAreSolutions }
{
    below();
}

/// A goal's formula has a model exactly where some cut run of the program fails the goal's row, breaks its check, or has a turn of its
/// loop that counts and isn't lower.
pub fn formulas_are_runs()
    ensures { FormulasAreRuns }
{
    programs();
}

/// The goal of a loop's ranking has a model exactly where some turn of it that counts isn't lower, by whatever fills the steps of
/// rankings and what these say.
pub fn turns_are_runs()
    ensures { TurnsAreRuns }
{
    programs();
}

/// The rows that cut runs fail, and the checks that they break, are among the goals.
pub fn runs_are_listed()
    ensures { RunsAreListed }
{
    programs();
}

/// Where no goal's formula has a model the point proves, so that the program is safe.
pub fn points_prove()
    ensures { PointsProve }
{
    programs();
}

/// Where with rankings no goal's formula has a model these rank the loops at the point, so that the program terminates.
pub fn ranks_prove()
    ensures { RanksProve }
{
    programs();
}
