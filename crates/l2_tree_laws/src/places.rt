// Where things begin.
ghost use Rattle.l2_tree_laws.specs.Places.{FirstPlaceLaw, TypePlaceLaw, ParameterPlaceLaw, InitialiserPlaceLaw};

/// The first token of an expression stands at its first place.
pub fn first_place_law()
    ensures { FirstPlaceLaw }
{}

/// The first token of a type stands at the place of its first specifier.
pub fn type_place_law()
    ensures { TypePlaceLaw }
{}

/// The same of a parameter, and of the name of a type.
pub fn parameter_place_law()
    ensures { ParameterPlaceLaw }
{}

/// The first token of an item of an initialiser stands at its place.
pub fn initialiser_place_law()
    ensures { InitialiserPlaceLaw }
{}
