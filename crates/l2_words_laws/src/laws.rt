// What holds of words: a law without code.
ghost use Rattle.l2_words_laws.specs.Usage.{UsageLaw};

/// Words ask for nothing exactly where `clap` finds a fault in them, or a value of their command is out of form.
pub fn usage_law()
    ensures { UsageLaw }
{}
