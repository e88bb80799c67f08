// What holds of reading one expression.
ghost use Rattle.l2_reading_laws.specs.Law.{UniqueExpressionRefusalLaw, ExpressionRefusedLaw, ExpressionReadLaw};

use l2_grammar::{expression_law, expression_nesting_law, expression_syntax_law};
use l2_tree_laws::expression_back_law;

/// No expression is refused in two ways.
pub fn unique_expression_refusal_law()
    ensures { UniqueExpressionRefusalLaw }
{
    expression_nesting_law();
    expression_syntax_law();
}

/// An expression that is read is not refused.
pub fn expression_refused_law()
    ensures { ExpressionRefusedLaw }
{
    expression_law();
    expression_nesting_law();
    expression_syntax_law();
}

/// One expression is read, and ends at one place.
pub fn expression_read_law()
    ensures { ExpressionReadLaw }
{
    expression_law();
    expression_back_law();
}
