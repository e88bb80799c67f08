// The expression that was read.
ghost use Rattle.std.specs.Prelude.{◌≡◌, IfOk};
ghost use Rattle.l2_grammar.specs.Expressions.{IsExpression, sort_at};
ghost use Rattle.l2_reader.specs.Parts.{tree_of};
ghost use Rattle.l2_tree.specs.Units.{expr_tree};
ghost use Rattle.l2_tree.specs.Spelling.{Keeps, run_expr};

use l2_build::{BuildError, expr_of};
use l2_grammar::Level;
use l2_reader::Open;
use l2_tree::Expr;
use l2_tree_laws::{expression_built_law, expression_run_law};
use std::alloc::{AllocError, Global};

/// The expression of a level that was read whole.
pub fn expression_of(alloc: Global, text: &Open, level: Level) -> Result<Expr, AllocError>
    requires whole { IsExpression level (tree_of text.now) }
    requires keeps { Keeps (tree_of text.now) }
    ensures { IfOk result (λ e. run_expr (sort_at level) (expr_tree e) ≡ tree_of text.now) }
{
    let _ = level;
    expression_built_law();
    expression_run_law();
    match expr_of(alloc, &text.parts) {
        Ok(value) => Ok(Box::into_inner(value)),
        Err(fault) => match fault {
            BuildError::NoMemory => Err(AllocError),
            BuildError::Misfit => unreachable!(),
        },
    }
}
