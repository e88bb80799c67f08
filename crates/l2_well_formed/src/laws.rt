// What holds of the tree of a unit.
ghost use Rattle.l2_well_formed.specs.WellFormed.{WellFormedLaw};

/// The tree of a unit is well formed.
pub fn well_formed_law()
    ensures { WellFormedLaw }
{}
