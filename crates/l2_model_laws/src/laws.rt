//! What every model of a code's clauses has, and what a point's rankings say: functions without effect whose contracts are the laws.
ghost use Rattle.l2_goal_laws.specs.Below.{FirstIsTrue};
ghost use Rattle.l2_model_laws.specs.Law.{RankingsSayLower};

/// The clause of variable 1 stays: it is true in each model of a code's clauses.
pub fn first_is_true()
    ensures { FirstIsTrue }
{}

/// Over the variables of a loop a ranking says of two stores what its forms, over the objects, say of them.
pub fn rankings_say_lower()
    ensures { RankingsSayLower }
{}
