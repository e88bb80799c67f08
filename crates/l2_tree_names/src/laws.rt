// What holds of names and of types.
ghost use Rattle.l2_tree_names.specs.Declarators.{NameLaw, NameTokenLaw};
ghost use Rattle.l2_tree_names.specs.Specifiers.{BasePlaceLaw};

use l2_tree_laws::declaration_type_law;

/// A declarator's name is the word behind every `*`, `* const` and `(` with which its tokens begin.
pub fn name_law()
    ensures { NameLaw }
{}

/// In a unit that tokens spell, a declarator's name is one of them, at its place.
pub fn name_token_law()
    ensures { NameTokenLaw }
{}

/// The specifiers of a declaration that may stand somewhere have a first token of their type.
pub fn base_place_law()
    ensures { BasePlaceLaw }
{
    declaration_type_law();
}
