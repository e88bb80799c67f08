// What specifiers say.
ghost use Rattle.l2_tree_laws.specs.Specifiers.{DeclarationTypeLaw, OtherLaw, StorageLaw};

/// The specifiers of a declaration that may stand somewhere name one type, with at most one word of storage.
pub fn declaration_type_law()
    ensures { DeclarationTypeLaw }
{}

/// A type that is no number is found among specifiers exactly where there is one.
pub fn other_type_law()
    ensures { OtherLaw }
{}

/// A word of storage is found among specifiers exactly where there is one.
pub fn storage_law()
    ensures { StorageLaw }
{}
