//! Circuits over words that show whole numbers.
ghost use Rattle.l2_circuit_laws.specs.Shows.{SumsShow, DifferencesShow, ProductsShow, LessShows, LessEqualShows, EqualShows, ConstantsShow, ExtensionsShow, TruthsShow, ChoicesShow, WrapsShow};

/// A sum of words shows the sum.
pub fn sums_show()
    ensures { SumsShow }
{}

/// A difference of words shows the difference.
pub fn differences_show()
    ensures { DifferencesShow }
{}

/// A product of words shows the product.
pub fn products_show()
    ensures { ProductsShow }
{}

/// Which of two numbers that fit is less.
pub fn less_shows()
    ensures { LessShows }
{}

/// Which of two numbers that fit is at most the other.
pub fn less_equal_shows()
    ensures { LessEqualShows }
{}

/// Whether two numbers that fit are equal.
pub fn equal_shows()
    ensures { EqualShows }
{}

/// A constant shows its number.
pub fn constants_show()
    ensures { ConstantsShow }
{}

/// A longer word shows the number too, where it fits the shorter one.
pub fn extensions_show()
    ensures { ExtensionsShow }
{}

/// A truth value as a word.
pub fn truths_show()
    ensures { TruthsShow }
{}

/// One of two words shows what it showed.
pub fn choices_show()
    ensures { ChoicesShow }
{}

/// A word of a type's width shows the number wrapped, too.
pub fn wraps_show()
    ensures { WrapsShow }
{}
