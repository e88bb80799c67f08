ghost use Rattle.l2_tree_laws.specs.Law.{UnitBuiltLaw, UnitRunLaw, UnitBackLaw, UniqueRunLaw, UniqueTreeLaw, ExpressionBuiltLaw, ExpressionRunLaw, ExpressionBackLaw};

/// A unit that was read is built.
pub fn unit_built_law()
    ensures { UnitBuiltLaw }
{}

/// What is built of a unit has the run that it was built from.
pub fn unit_run_law()
    ensures { UnitRunLaw }
{}

/// What is built of a unit's run is the unit.
pub fn unit_back_law()
    ensures { UnitBackLaw }
{}

/// Two units never have one run.
pub fn unique_run_law()
    ensures { UniqueRunLaw }
{}

/// Tokens spell at most one unit, with all places that its tree keeps.
pub fn unique_tree_law()
    ensures { UniqueTreeLaw }
{}

/// An expression that was read is built.
pub fn expression_built_law()
    ensures { ExpressionBuiltLaw }
{}

/// What is built of an expression has the run that it was built from.
pub fn expression_run_law()
    ensures { ExpressionRunLaw }
{}

/// What is built of an expression's run is the expression.
pub fn expression_back_law()
    ensures { ExpressionBackLaw }
{}
