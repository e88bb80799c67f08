//! Circuits are made.
ghost use Rattle.l2_circuit_laws.specs.Making.{CircuitsMake, ConstantsAreBelow, ExtensionsAreBelow};

/// Circuits over words that are there are made, and each model of the clauses before goes on to one of all.
pub fn circuits_make()
    ensures { CircuitsMake }
{}

/// The literals of a constant are there.
pub fn constants_are_below()
    ensures { ConstantsAreBelow }
{}

/// The literals of a longer word are there.
pub fn extensions_are_below()
    ensures { ExtensionsAreBelow }
{}
