//! What holds of short formulas: functions without effect whose contracts are the laws.
ghost use Rattle.l2_goal_laws.specs.Below.{Below};
ghost use Rattle.l2_short_goal_laws.specs.Law.{ModelsFind, ChoicesFit, RunsHaveModels};

/// What holds of equations and their clauses.
fn below()
    ensures { Below }
{
    l2_ssa::laws::steps_in_order();
    l2_typed_steps::laws::steps_are_typed();
    l2_given_steps::laws::choices_match();
    l2_blast_laws::laws::choices_have_models();
    l2_blast_laws::laws::models_solve();
    l2_blast_laws::laws::fills_hold();
    l2_blast_laws::laws::literals_show();
}

/// Where an assignment satisfies the formula of a check of a lawful program, the execution on the choices and turns that it shows
/// breaks the check and uses all of both, and so does the short run on these choices.
pub fn models_find()
    ensures { ModelsFind }
{
    below();
}

/// Each choice that is shown is a value of its type.
pub fn choices_fit()
    ensures { ChoicesFit }
{
    l2_bits::laws::wrap_is_the_only_value();
}

/// Where a short run of a lawful program breaks a check, the check's formula has a model.
pub fn runs_have_models()
    ensures { RunsHaveModels }
{
    below();
}
