//! What holds of the clauses of grown equations: functions without effect whose contracts are the laws.
ghost use Rattle.l2_grown_models.specs.Filling.{GrownFills};
ghost use Rattle.l2_grown_models.specs.Law.{GatesAsk, QuestionsAreModels};

use l2_blast_laws::laws::{
    agreed_show_same, blasting_makes_behind, models_solve_behind, open_rows_have_models,
};
use l2_given_steps::laws::choices_match;
use l2_grown_laws::laws::grown_law;
use l2_said_rows::laws::{said_rows, some_event_is};
use l2_ssa::laws::steps_in_order;
use l2_typed_steps::laws::steps_are_typed;

/// Where clauses stand behind others that have a model, and literals say what a question says of rows and that one of its events is
/// true, the clauses have a model under the literals exactly where the run that the question asks for exists. Such
/// literals are made by gates, over whatever fills rows with what the question's point says.
pub fn questions_are_models()
    ensures models { QuestionsAreModels }
    ensures gates { GatesAsk }
{
    steps_in_order();
    steps_are_typed();
    choices_match();
    models_solve_behind();
    open_rows_have_models();
    blasting_makes_behind();
    agreed_show_same();
    grown_law();
    said_rows();
    some_event_is();
}

/// What fills the rows of grown equations is made where what fills those of a point is, and gives what the point says where this does.
pub fn grown_fills()
    ensures { GrownFills }
{}
