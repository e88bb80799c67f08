// The constants of every text: a law without code.
ghost use Rattle.l2_constant_laws.specs.Laws.{ConstantsLaw, ThresholdsLaw};

/// Each constant among the tokens of a text is a number from -2^63 to 2^64 - 1.
pub fn constants_law()
    ensures { ConstantsLaw }
{}

/// The thresholds of such constants are numbers from -2^64 to 2^64.
pub fn thresholds_law()
    ensures { ThresholdsLaw }
{}
