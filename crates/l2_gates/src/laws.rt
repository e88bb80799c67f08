//! What holds of gates: functions without effect whose contracts are the laws.
ghost use Rattle.l2_gates.specs.Law.{GatesHaveValues, GatesMake};

/// In each model of the clauses in which variable 1 is true, a gate's literal has the value that the gate computes.
pub fn gates_have_values()
    ensures { GatesHaveValues }
{}

/// A gate over variables that there are defines at most one more, and each model of the clauses before goes on to one of all.
pub fn gates_make()
    ensures { GatesMake }
{}
