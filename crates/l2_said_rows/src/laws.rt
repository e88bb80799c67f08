//! What holds of these literals: functions without effect whose contracts are the laws.
ghost use Rattle.l2_said_rows.specs.Eventing.{SomeEventIs};
ghost use Rattle.l2_said_rows.specs.Law.{SaidRows};

/// The literals are made behind the clauses of equations, whatever came between, and in each model they are all true exactly where the
/// variables of rows and rankings are what is said of them.
pub fn said_rows()
    ensures { SaidRows }
{}

/// The literal of some events is made behind the clauses of equations, whatever came between, and in each model it is true exactly
/// where an event is true whose goal is asked for.
pub fn some_event_is()
    ensures { SomeEventIs }
{}
