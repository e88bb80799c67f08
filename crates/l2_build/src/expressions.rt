// Expressions.
ghost use Rattle.std.specs.Prelude.{◌≡◌, ◌≢◌, ◌≤◌, IfOk, IfErr, None, Some};
ghost use Rattle.l2_tree.specs.Build.{tail as tail_of, opened as opens_so, expr_of as as_expr, parameter_of as as_parameter, cast as cast_so};
ghost use Rattle.l2_tree.specs.Units.{expr_tree};
ghost use Rattle.l2_build.specs.Parts.{parts_of, size_of};

use crate::error::BuildError;
use crate::next::{Next, specifies, split};
use crate::operands::{Operand, tail};
use crate::starts::opening_of;
use crate::types::{TypeName, brackets, parameter_of, type_name_of};
use l2_networks::is;
use l2_reader::Syntax;
use l2_syntax::{Mark, Place};
use l2_tree::{Expr, Opening, UnaryOperator, UpdateOperator};
use std::alloc::Global;

/// Behind a unary operator.
#[cycle(build)]
fn with_unary<'a>(
    alloc: Global,
    operator: UnaryOperator,
    place: Place,
    parts: &'a [Syntax],
) -> Result<Operand<'a>, BuildError>
    ensures ok { IfOk result (λ r. opens_so (Opening.Unary operator) place (parts_of parts.now) ≡ tail_of (expr_tree r.value.value) (parts_of r.rest.now)) }
    ensures less { IfOk result (λ r. size_of r.rest.now ≤ size_of parts.now) }
    ensures err { IfErr result (λ f. f ≢ BuildError.NoMemory → opens_so (Opening.Unary operator) place (parts_of parts.now) ≡ None) }
{
    match split(parts) {
        Next::Node(inner, rest) => {
            let operand = expr_of(alloc, inner)?;
            let value = Box::new(alloc, Expr::Unary(operator, place, operand))?;
            Ok(Operand { value, rest })
        }
        Next::Leaf(_, _) | Next::End => Err(BuildError::Misfit),
    }
}

/// Behind `++` or `--` before an expression.
#[cycle(build)]
fn with_update<'a>(
    alloc: Global,
    operator: UpdateOperator,
    place: Place,
    parts: &'a [Syntax],
) -> Result<Operand<'a>, BuildError>
    ensures ok { IfOk result (λ r. opens_so (Opening.Update operator) place (parts_of parts.now) ≡ tail_of (expr_tree r.value.value) (parts_of r.rest.now)) }
    ensures less { IfOk result (λ r. size_of r.rest.now ≤ size_of parts.now) }
    ensures err { IfErr result (λ f. f ≢ BuildError.NoMemory → opens_so (Opening.Update operator) place (parts_of parts.now) ≡ None) }
{
    match split(parts) {
        Next::Node(inner, rest) => {
            let operand = expr_of(alloc, inner)?;
            let value = Box::new(alloc, Expr::Update(operator, place, operand))?;
            Ok(Operand { value, rest })
        }
        Next::Leaf(_, _) | Next::End => Err(BuildError::Misfit),
    }
}

/// Behind `sizeof`: the name of a type in parentheses, or else an expression.
#[cycle(build)]
fn with_size<'a>(
    alloc: Global,
    place: Place,
    parts: &'a [Syntax],
) -> Result<Operand<'a>, BuildError>
    ensures ok { IfOk result (λ r. opens_so Opening.Sizeof place (parts_of parts.now) ≡ tail_of (expr_tree r.value.value) (parts_of r.rest.now)) }
    ensures less { IfOk result (λ r. size_of r.rest.now ≤ size_of parts.now) }
    ensures err { IfErr result (λ f. f ≢ BuildError.NoMemory → opens_so Opening.Sizeof place (parts_of parts.now) ≡ None) }
{
    let Next::Node(inner, rest) = split(parts) else {
        return Err(BuildError::Misfit);
    };
    if brackets(inner) {
        let TypeName {
            place: bracket,
            named,
        } = type_name_of(alloc, inner)?;
        let value = Box::new(alloc, Expr::SizeofType(place, bracket, named))?;
        return Ok(Operand { value, rest });
    }
    let operand = expr_of(alloc, inner)?;
    let value = Box::new(alloc, Expr::Sizeof(place, operand))?;
    Ok(Operand { value, rest })
}

/// A cast, behind the name of its type in parentheses.
#[cycle(build)]
fn with_cast<'a>(
    alloc: Global,
    place: Place,
    type_name: &[Syntax],
    parts: &'a [Syntax],
) -> Result<Operand<'a>, BuildError>
    ensures ok { IfOk result (λ r. cast_so place (as_parameter (parts_of type_name.now)) (parts_of parts.now) ≡ tail_of (expr_tree r.value.value) (parts_of r.rest.now)) }
    ensures less { IfOk result (λ r. size_of r.rest.now ≤ size_of parts.now) }
    ensures err { IfErr result (λ f. f ≢ BuildError.NoMemory → cast_so place (as_parameter (parts_of type_name.now)) (parts_of parts.now) ≡ None) }
{
    let Next::Node(inner, rest) = split(parts) else {
        return Err(BuildError::Misfit);
    };
    let named = parameter_of(alloc, type_name)?;
    let operand = expr_of(alloc, inner)?;
    let value = Box::new(alloc, Expr::Cast(place, named, operand))?;
    Ok(Operand { value, rest })
}

/// Behind a `(`: a cast, or an expression in parentheses.
#[cycle(build)]
fn with_parenthesis<'a>(
    alloc: Global,
    place: Place,
    parts: &'a [Syntax],
) -> Result<Operand<'a>, BuildError>
    ensures ok { IfOk result (λ r. opens_so Opening.Parenthesis place (parts_of parts.now) ≡ tail_of (expr_tree r.value.value) (parts_of r.rest.now)) }
    ensures less { IfOk result (λ r. size_of r.rest.now ≤ size_of parts.now) }
    ensures err { IfErr result (λ f. f ≢ BuildError.NoMemory → opens_so Opening.Parenthesis place (parts_of parts.now) ≡ None) }
{
    let Next::Node(inner, behind) = split(parts) else {
        return Err(BuildError::Misfit);
    };
    let Next::Leaf(close, rest) = split(behind) else {
        return Err(BuildError::Misfit);
    };
    if !is(Mark::CloseParenthesis, close.kind) {
        return Err(BuildError::Misfit);
    }
    if specifies(inner) {
        let operand = with_cast(alloc, place, inner, rest)?;
        return Ok(operand);
    }
    let inside = expr_of(alloc, inner)?;
    let value = Box::new(alloc, Expr::Parenthesised(place, inside))?;
    Ok(Operand { value, rest })
}

/// The first operand, behind the token with which it begins.
#[cycle(build)]
fn opened<'a>(
    alloc: Global,
    opening: Opening,
    place: Place,
    parts: &'a [Syntax],
) -> Result<Operand<'a>, BuildError>
    ensures ok { IfOk result (λ r. opens_so opening place (parts_of parts.now) ≡ tail_of (expr_tree r.value.value) (parts_of r.rest.now)) }
    ensures less { IfOk result (λ r. size_of r.rest.now ≤ size_of parts.now) }
    ensures err { IfErr result (λ f. f ≢ BuildError.NoMemory → opens_so opening place (parts_of parts.now) ≡ None) }
{
    match opening {
        Opening::Name(name) => {
            let value = Box::new(alloc, Expr::Name(name, place))?;
            Ok(Operand { value, rest: parts })
        }
        Opening::Number(number, scalar) => {
            let value = Box::new(alloc, Expr::Number(number, scalar, place))?;
            Ok(Operand { value, rest: parts })
        }
        Opening::Text => {
            let value = Box::new(alloc, Expr::Text(place))?;
            Ok(Operand { value, rest: parts })
        }
        Opening::Parenthesis => with_parenthesis(alloc, place, parts),
        Opening::Sizeof => with_size(alloc, place, parts),
        Opening::Unary(operator) => with_unary(alloc, operator, place, parts),
        Opening::Update(operator) => with_update(alloc, operator, place, parts),
    }
}

/// An expression (C11 6.5), from all parts of its construct. `Misfit` where they are those of none.
#[cycle(build)]
pub fn expr_of(alloc: Global, parts: &[Syntax]) -> Result<Box<Expr>, BuildError>
    ensures ok { IfOk result (λ e. as_expr (parts_of parts.now) ≡ Some (expr_tree e.value)) }
    ensures err { IfErr result (λ f. f ≢ BuildError.NoMemory → as_expr (parts_of parts.now) ≡ None) }
{
    let Next::Leaf(token, rest) = split(parts) else {
        return Err(BuildError::Misfit);
    };
    let Some(opening) = opening_of(token.kind) else {
        return Err(BuildError::Misfit);
    };
    let Operand {
        value,
        rest: behind,
    } = opened(alloc, opening, token.place, rest)?;
    let whole = tail(alloc, value, behind)?;
    Ok(whole)
}
