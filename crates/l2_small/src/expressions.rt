// Expressions.
ghost use Rattle.std.specs.Prelude.{◌≡◌, Some, None, IfOk, IsErrOf};
ghost use Rattle.l2_tree.specs.Trees.{no_exprs};
ghost use Rattle.l2_tree.specs.Units.{expr_tree, exprs_onto};
ghost use Rattle.l2_small.specs.SmallTrees.{small_expr_tree};
ghost use Rattle.l2_small.specs.SmallForm.{word_of, small_choice, small_expr};

use crate::error::SmallError;
use crate::make::{binary, parenthesised, unary};
use crate::operators::{is_int_constant, small_binary, small_unary};
use crate::tree::SmallExpr;
use crate::words::{Word, is_nondet_int, is_variable};
use l2_syntax::Name;
use l2_tree::Expr;
use std::alloc::Global;

/// The word that an expression is, if it is a name.
pub fn word_of(e: &Expr) -> Option<Word>
    ensures { result ≡ word_of (expr_tree e.now) }
{
    match e {
        Expr::Name(name, place) => Some(Word {
            name: *name,
            place: *place,
        }),
        Expr::Number(..)
        | Expr::Text(..)
        | Expr::Parenthesised(..)
        | Expr::Index(..)
        | Expr::Call(..)
        | Expr::Member(..)
        | Expr::PostUpdate(..)
        | Expr::Update(..) => None,
        Expr::Unary(..)
        | Expr::Sizeof(..)
        | Expr::SizeofType(..)
        | Expr::Cast(..)
        | Expr::Binary(..)
        | Expr::Conditional(..)
        | Expr::Assign(..)
        | Expr::Comma(..) => None,
    }
}

/// `__VERIFIER_nondet_int()`: a call of the built-in name without arguments.
#[tactic(auto, using(crate::proofs::Lists::arguments))]
fn choice(names: &[Name], function: Option<Word>, given: &[Expr]) -> Result<SmallExpr, SmallError>
    ensures ok { IfOk result (λ r. small_choice names.now function (exprs_onto no_exprs given.now) ≡ Some (small_expr_tree r)) }
    ensures not_small { IsErrOf result SmallError.NotSmall → small_choice names.now function (exprs_onto no_exprs given.now) ≡ None }
{
    match function {
        Some(word) => {
            if !given.is_empty() {
                Err(SmallError::NotSmall)
            } else if is_nondet_int(names, word.name) {
                Ok(SmallExpr::Choice(word.place))
            } else {
                Err(SmallError::NotSmall)
            }
        }
        None => Err(SmallError::NotSmall),
    }
}

/// The small tree of an expression.
#[tactic(auto, using(crate::proofs::Steps::steps, crate::proofs::Lists::calls))]
pub fn small_expr(alloc: Global, names: &[Name], e: &Expr) -> Result<SmallExpr, SmallError>
    ensures ok { IfOk result (λ r. small_expr names.now (expr_tree e.now) ≡ Some (small_expr_tree r)) }
    ensures not_small { IsErrOf result SmallError.NotSmall → small_expr names.now (expr_tree e.now) ≡ None }
{
    match e {
        Expr::Name(name, place) => {
            if is_variable(names, *name) {
                Ok(SmallExpr::Name(*name, *place))
            } else {
                Err(SmallError::NotSmall)
            }
        }
        Expr::Number(value, scalar, _) => {
            if is_int_constant(*scalar) {
                Ok(SmallExpr::Number(*value))
            } else {
                Err(SmallError::NotSmall)
            }
        }
        Expr::Call(function, _, given) => choice(names, word_of(function), given),
        Expr::Parenthesised(_, e) => match small_expr(alloc, names, e) {
            Ok(inner) => parenthesised(alloc, inner),
            Err(f) => Err(f),
        },
        Expr::Unary(operator, _, e) => match small_unary(*operator) {
            Some(operator) => {
                let operand = small_expr(alloc, names, e)?;
                unary(alloc, operator, operand)
            }
            None => Err(SmallError::NotSmall),
        },
        Expr::Binary(x, operator, _, y) => match small_binary(*operator) {
            Some(operator) => {
                let left = small_expr(alloc, names, x)?;
                let right = small_expr(alloc, names, y)?;
                binary(alloc, operator, left, right)
            }
            None => Err(SmallError::NotSmall),
        },
        Expr::Text(..)
        | Expr::Index(..)
        | Expr::Member(..)
        | Expr::PostUpdate(..)
        | Expr::Update(..)
        | Expr::Sizeof(..) => Err(SmallError::NotSmall),
        Expr::SizeofType(..)
        | Expr::Cast(..)
        | Expr::Conditional(..)
        | Expr::Assign(..)
        | Expr::Comma(..) => Err(SmallError::NotSmall),
    }
}
