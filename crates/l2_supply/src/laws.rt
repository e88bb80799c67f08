//! What holds of runs by supplies: functions without effect whose contracts are the laws.
ghost use Rattle.l2_supply.specs.Going.{RunsAgree};

/// Code does the same on lists of choices and by supplies: for each supply there are choices that lead where it leads, whatever
/// choices follow them; and where choices lead to a value or a failure, a supply does.
pub fn runs_agree()
    ensures { RunsAgree }
{}
