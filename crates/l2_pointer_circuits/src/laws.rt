//! What circuits of pointers give: functions without effect whose contracts are the laws.
ghost use Rattle.l2_pointer_circuits.specs.Law.{HalvesShow, PointersShow, PointerChoicesShow, PlacesAre, PicksAre, MovesShow, OperatorsShow, NullIs, InvalidIs, LiveIs, CellsAre, MovesAre, SameIs, AmongIs, CodesAreSmall, SetsHaveCells, PointersAreMade, AmongIsMade, ConstantsAreThere};

/// A selector and an offset side by side are their pointer.
pub fn halves_show()
    ensures { HalvesShow }
{}

/// Constants.
pub fn pointers_show()
    ensures { PointersShow }
{}

/// One of two words.
pub fn pointer_choices_show()
    ensures { PointerChoicesShow }
{}

/// Whether a pointer is at a place.
pub fn places_are()
    ensures { PlacesAre }
{}

/// Reads and writes at one place.
pub fn picks_are()
    ensures { PicksAre }
{}

/// Moves within an object.
pub fn moves_show()
    ensures { MovesShow }
{}

/// Operators on two pointers.
pub fn operators_show()
    ensures { OperatorsShow }
{}

/// Whether a pointer of the set isn't Null.
pub fn null_is()
    ensures { NullIs }
{}

/// Whether a pointer of the set isn't Invalid.
pub fn invalid_is()
    ensures { InvalidIs }
{}

/// Whether no object to which a pointer leads is dead.
pub fn live_is()
    ensures { LiveIs }
{}

/// Whether cells of some types stand at a pointer of the set.
pub fn cells_are()
    ensures { CellsAre }
{}

/// Whether a pointer of the set may be moved.
pub fn moves_are()
    ensures { MovesAre }
{}

/// Whether two pointers are of one object.
pub fn same_is()
    ensures { SameIs }
{}

/// Whether a selector and an offset are those of a pointer of the set.
pub fn among_is()
    ensures { AmongIs }
{}

/// Objects of codes are few, and short.
pub fn codes_are_small()
    ensures { CodesAreSmall }
{}

/// Sets over a code name objects that have cells.
pub fn sets_have_cells()
    ensures { SetsHaveCells }
{}

/// Circuits of pointers that are there are made.
pub fn pointers_are_made()
    ensures { PointersAreMade }
{}

/// So is that of a selector and an offset.
pub fn among_is_made()
    ensures { AmongIsMade }
{}

/// Constants have no gates.
pub fn constants_are_there()
    ensures { ConstantsAreThere }
{}
