// What holds of the program of every text: laws without code.
ghost use Rattle.l2_text_laws.specs.Laws.{ThresholdsOfAText};

/// The thresholds of the program of a text rise, 0 is one of them, and they are numbers from -2^64 to 2^64.
pub fn thresholds_of_a_text()
    ensures { ThresholdsOfAText }
{}
