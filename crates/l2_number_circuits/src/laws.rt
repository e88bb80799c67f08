//! What circuits on numbers give, and that they are made: functions without effect whose contracts are the laws.
ghost use Rattle.l2_number_circuits.specs.Law.{NumbersShow, ConvertedShow, DivisionsAre, ShiftsAre, IndexesAre, OverflowsAre, NumbersAreMade, NumbersHaveLengths, ConvertedHaveLengths};

/// Where an operator has an answer, the word shows it.
pub fn numbers_show()
    ensures { NumbersShow }
{}

/// A number as one of another type.
pub fn converted_show()
    ensures { ConvertedShow }
{}

/// Whether the quotient is a value of the type.
pub fn divisions_are()
    ensures { DivisionsAre }
{}

/// Whether an amount is from 0 to below the width.
pub fn shifts_are()
    ensures { ShiftsAre }
{}

/// Whether an index is from 0 to below an end.
pub fn indexes_are()
    ensures { IndexesAre }
{}

/// Whether the exact result is a value of the type.
pub fn overflows_are()
    ensures { OverflowsAre }
{}

/// Circuits over words that are there are made, and each model of the clauses before goes on to one of all.
pub fn numbers_are_made()
    ensures { NumbersAreMade }
{}

/// How long the words are.
pub fn numbers_have_lengths()
    ensures { NumbersHaveLengths }
{}

/// How long converted words are.
pub fn converted_have_lengths()
    ensures { ConvertedHaveLengths }
{}
