//! What circuits make of the values of their literals, and that they are made.
ghost use Rattle.l2_circuit_laws.specs.Law.{ColumnsHaveValues, ColumnsAreMade, SumsAre, DifferencesAre, LessIs, EqualIs, ChoicesAre, ProductsAre, QuotientsAre};

/// In each model of the clauses in which variable 1 is true, a circuit that goes bit by bit computes what its columns do.
pub fn columns_have_values()
    ensures { ColumnsHaveValues }
{}

/// A circuit that goes bit by bit over literals that are there is made, and each model of the clauses before goes on to one of all.
pub fn columns_are_made()
    ensures { ColumnsAreMade }
{}

/// A sum and its carry.
pub fn sums_are()
    ensures { SumsAre }
{}

/// A difference and its carry.
pub fn differences_are()
    ensures { DifferencesAre }
{}

/// Which of two words without signs is less.
pub fn less_is()
    ensures { LessIs }
{}

/// Whether two words are equal.
pub fn equal_is()
    ensures { EqualIs }
{}

/// One of two words.
pub fn choices_are()
    ensures { ChoicesAre }
{}

/// A product, but for multiples of 2 to the power of the width.
pub fn products_are()
    ensures { ProductsAre }
{}

/// A quotient without signs, and what is left.
pub fn quotients_are()
    ensures { QuotientsAre }
{}
