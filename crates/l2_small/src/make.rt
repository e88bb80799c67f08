// Trees, made of their parts.
ghost use Rattle.std.specs.Prelude.{◌≡◌, IfOk, IfErr};
ghost use Rattle.l2_small.specs.SmallTrees.{Parenthesised, Unary, Binary, If, IfElse, While, small_expr_tree, small_stmt_tree};
ghost use Rattle.l2_small.specs.declared.error.SmallError.TheVariants.{NoMemory};

use crate::error::SmallError;
use crate::tree::{SmallExpr, SmallStmt};
use l2_runs::{BinaryOperator, UnaryOperator};
use l2_syntax::Place;
use std::alloc::Global;

pub fn parenthesised(alloc: Global, e: SmallExpr) -> Result<SmallExpr, SmallError>
    ensures ok { IfOk result (λ r. small_expr_tree r ≡ Parenthesised (small_expr_tree e)) }
    ensures err { IfErr result (λ f. f ≡ NoMemory) }
{
    Ok(SmallExpr::Parenthesised(Box::new(alloc, e)?))
}

pub fn unary(
    alloc: Global,
    operator: UnaryOperator,
    operand: SmallExpr,
) -> Result<SmallExpr, SmallError>
    ensures ok { IfOk result (λ r. small_expr_tree r ≡ Unary operator (small_expr_tree operand)) }
    ensures err { IfErr result (λ f. f ≡ NoMemory) }
{
    Ok(SmallExpr::Unary(operator, Box::new(alloc, operand)?))
}

pub fn binary(
    alloc: Global,
    operator: BinaryOperator,
    left: SmallExpr,
    right: SmallExpr,
) -> Result<SmallExpr, SmallError>
    ensures ok { IfOk result (λ r. small_expr_tree r ≡ Binary operator (small_expr_tree left) (small_expr_tree right)) }
    ensures err { IfErr result (λ f. f ≡ NoMemory) }
{
    Ok(SmallExpr::Binary(operator, Box::new(alloc, left)?, Box::new(alloc, right)?))
}

pub fn if_then(alloc: Global, test: SmallExpr, body: SmallStmt) -> Result<SmallStmt, SmallError>
    ensures ok { IfOk result (λ r. small_stmt_tree r ≡ If (small_expr_tree test) (small_stmt_tree body)) }
    ensures err { IfErr result (λ f. f ≡ NoMemory) }
{
    Ok(SmallStmt::If(test, Box::new(alloc, body)?))
}

pub fn if_else(
    alloc: Global,
    test: SmallExpr,
    body: SmallStmt,
    other: SmallStmt,
) -> Result<SmallStmt, SmallError>
    ensures ok { IfOk result (λ r. small_stmt_tree r ≡ IfElse (small_expr_tree test) (small_stmt_tree body) (small_stmt_tree other)) }
    ensures err { IfErr result (λ f. f ≡ NoMemory) }
{
    Ok(SmallStmt::IfElse(test, Box::new(alloc, body)?, Box::new(alloc, other)?))
}

pub fn while_loop(
    alloc: Global,
    place: Place,
    test: SmallExpr,
    body: SmallStmt,
) -> Result<SmallStmt, SmallError>
    ensures ok { IfOk result (λ r. small_stmt_tree r ≡ While place (small_expr_tree test) (small_stmt_tree body)) }
    ensures err { IfErr result (λ f. f ≡ NoMemory) }
{
    Ok(SmallStmt::While(place, test, Box::new(alloc, body)?))
}
