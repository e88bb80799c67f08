// What holds of the tokens of every text: a law without code.
ghost use Rattle.l2_lex.specs.Laws.{TokensLaw};

/// No name stands twice in `names`, each word and type name has the number of one of them, and exactly a text that isn't stopped has the token `End`, once, at its end.
pub fn tokens_law()
    ensures { TokensLaw }
{}
