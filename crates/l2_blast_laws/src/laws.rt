//! What holds of the clauses of equations.
ghost use Rattle.l2_blast_laws.specs.Law.{ModelsSolve, FillsHold, ChoicesHaveModels, BlastingMakes, LiteralsShow};
ghost use Rattle.l2_blast_laws.specs.Behind.{AgreedShowSame, BlastingMakesBehind, ChoicesHaveModelsBehind, FillsHoldBehind, LiteralsShowBehind, ModelsSolveBehind, NumbersShowBehind, OpenIsMade, OpenRowsHaveModels, SaidRowsHold};

/// In each model of the clauses the words show a solution of the equations, where they show one of the equations of rows.
pub fn models_solve()
    ensures { ModelsSolve }
{}

/// Where what fills rows gives what they mean, the words show a solution of the equations of rows.
pub fn fills_hold()
    ensures { FillsHold }
{}

/// For all values of the choices some model of the clauses shows these.
pub fn choices_have_models()
    ensures { ChoicesHaveModels }
{}

/// Words and clauses are of variables that are there.
pub fn blasting_makes()
    ensures { BlastingMakes }
{}

/// The literal of a truth value has its value.
pub fn literals_show()
    ensures { LiteralsShow }
{}

/// The same of clauses that stand behind others: in each model the words show a solution of the equations, where they show one of the
/// equations of rows.
pub fn models_solve_behind()
    ensures { ModelsSolveBehind }
{}

/// Where what fills rows gives what they mean, the words show a solution of the equations of rows.
pub fn fills_hold_behind()
    ensures { FillsHoldBehind }
{}

/// For all values of the choices each model of the clauses before goes on to one that shows these.
pub fn choices_have_models_behind()
    ensures { ChoicesHaveModelsBehind }
{}

/// The clauses before stay, and each of their models goes on; words are of variables that are there.
pub fn blasting_makes_behind()
    ensures { BlastingMakesBehind }
{}

/// Names show the same in assignments that agree on the variables that are there.
pub fn agreed_show_same()
    ensures { AgreedShowSame }
{}

/// The literal of a truth value has its value, and the words of numbers show these.
pub fn literals_show_behind()
    ensures literals { LiteralsShowBehind }
    ensures numbers { NumbersShowBehind }
{}

/// Rows and rankings that are variables of their own: for all values of the choices, and whatever rows and rankings say, each model of
/// the clauses before goes on to one that shows these choices, and in which these variables are as rows and rankings say. So the
/// equations of rows hold there.
pub fn open_rows_have_models()
    ensures made { OpenIsMade }
    ensures models { OpenRowsHaveModels }
    ensures rows { SaidRowsHold }
{}
