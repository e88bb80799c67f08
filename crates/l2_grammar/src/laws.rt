ghost use Rattle.l2_grammar.specs.Expressions.{ExpressionLaw, ExpressionNestingLaw, ExpressionSyntaxLaw};
ghost use Rattle.l2_grammar.specs.Law.{ReadLaw, StopLaw, UniqueLaw};
ghost use Rattle.l2_grammar.specs.Limits.{WithinLaw, NestingLaw, SyntaxLaw};

/// The reader reads a unit exactly where the tokens spell it. Holds for every list of tokens.
pub fn read_law()
    ensures { ReadLaw }
{}

/// Where the reader stops, some unit begins with the tokens before, and none with one token more.
pub fn stop_law()
    ensures { StopLaw }
{}

/// Tokens spell at most one unit.
pub fn unique_law()
    ensures { UniqueLaw }
{}

/// Within the limits a unit is read exactly where the tokens spell it and none of them is too deep.
pub fn within_law()
    ensures { WithinLaw }
{}

/// Where a limit stops the reader, some unit begins with the tokens before, and the next is the first that is too deep.
pub fn nesting_law()
    ensures { NestingLaw }
{}

/// Where the grammar stops the reader, reading stops there, and no token up to that one is too deep.
pub fn syntax_law()
    ensures { SyntaxLaw }
{}

/// An expression ends exactly where the tokens before spell it and no expression goes on with the next, and none is too deep.
pub fn expression_law()
    ensures { ExpressionLaw }
{}

/// Reading an expression is refused by a limit exactly where some expression begins with the tokens before, and the next is the
/// first that is too deep.
pub fn expression_nesting_law()
    ensures { ExpressionNestingLaw }
{}

/// Reading an expression is refused by the grammar exactly where some expression begins with the tokens before, none with one more,
/// and those before are no whole expression.
pub fn expression_syntax_law()
    ensures { ExpressionSyntaxLaw }
{}
