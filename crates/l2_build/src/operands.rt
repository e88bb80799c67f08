// What stands behind an operand.
ghost use Rattle.std.specs.Prelude.{◌≡◌, ◌≢◌, ◌≤◌, ◌∷◌, IfOk, IfErr, None, Some};
ghost use Rattle.l2_tree.specs.Build.{tail as tail_of, continued as goes_on, arguments as arguments_of, node, built};
ghost use Rattle.l2_tree.specs.Trees.{no_exprs};
ghost use Rattle.l2_tree.specs.Units.{expr_tree, exprs_onto};
ghost use Rattle.l2_build.specs.Parts.{parts_of, size_of};

use crate::error::BuildError;
use crate::expressions::expr_of;
use crate::made::call;
use crate::next::{Next, split};
use crate::starts::continuation_of;
use l2_networks::is;
use l2_reader::Syntax;
use l2_syntax::{Mark, Place, TokenKind};
use l2_tree::{
    AssignmentOperator, BinaryOperator, Continuation, Expr, MemberOperator, UpdateOperator,
};
use std::alloc::Global;

/// An operand, and the parts behind it.
#[derive(Drop)]
pub struct Operand<'a> {
    pub value: Box<Expr>,
    pub rest: &'a [Syntax],
}

/// Behind a binary operator.
#[cycle(build)]
fn with_binary<'a>(
    alloc: Global,
    left: Box<Expr>,
    operator: BinaryOperator,
    place: Place,
    parts: &'a [Syntax],
) -> Result<Operand<'a>, BuildError>
    ensures ok { IfOk result (λ r. goes_on (Some (Continuation.Binary operator)) (expr_tree left.value) place (parts_of parts.now) ≡ tail_of (expr_tree r.value.value) (parts_of r.rest.now)) }
    ensures less { IfOk result (λ r. size_of r.rest.now ≤ size_of parts.now) }
    ensures err { IfErr result (λ f. f ≢ BuildError.NoMemory → goes_on (Some (Continuation.Binary operator)) (expr_tree left.value) place (parts_of parts.now) ≡ None) }
{
    match split(parts) {
        Next::Node(inner, rest) => {
            let right = expr_of(alloc, inner)?;
            let value = Box::new(alloc, Expr::Binary(left, operator, place, right))?;
            Ok(Operand { value, rest })
        }
        Next::Leaf(_, _) | Next::End => Err(BuildError::Misfit),
    }
}

/// Behind an assignment operator.
#[cycle(build)]
fn with_assignment<'a>(
    alloc: Global,
    left: Box<Expr>,
    operator: AssignmentOperator,
    place: Place,
    parts: &'a [Syntax],
) -> Result<Operand<'a>, BuildError>
    ensures ok { IfOk result (λ r. goes_on (Some (Continuation.Assign operator)) (expr_tree left.value) place (parts_of parts.now) ≡ tail_of (expr_tree r.value.value) (parts_of r.rest.now)) }
    ensures less { IfOk result (λ r. size_of r.rest.now ≤ size_of parts.now) }
    ensures err { IfErr result (λ f. f ≢ BuildError.NoMemory → goes_on (Some (Continuation.Assign operator)) (expr_tree left.value) place (parts_of parts.now) ≡ None) }
{
    match split(parts) {
        Next::Node(inner, rest) => {
            let right = expr_of(alloc, inner)?;
            let value = Box::new(alloc, Expr::Assign(left, operator, place, right))?;
            Ok(Operand { value, rest })
        }
        Next::Leaf(_, _) | Next::End => Err(BuildError::Misfit),
    }
}

/// Behind a comma.
#[cycle(build)]
fn with_comma<'a>(
    alloc: Global,
    left: Box<Expr>,
    place: Place,
    parts: &'a [Syntax],
) -> Result<Operand<'a>, BuildError>
    ensures ok { IfOk result (λ r. goes_on (Some Continuation.Comma) (expr_tree left.value) place (parts_of parts.now) ≡ tail_of (expr_tree r.value.value) (parts_of r.rest.now)) }
    ensures less { IfOk result (λ r. size_of r.rest.now ≤ size_of parts.now) }
    ensures err { IfErr result (λ f. f ≢ BuildError.NoMemory → goes_on (Some Continuation.Comma) (expr_tree left.value) place (parts_of parts.now) ≡ None) }
{
    let _ = place;
    match split(parts) {
        Next::Node(inner, rest) => {
            let right = expr_of(alloc, inner)?;
            let value = Box::new(alloc, Expr::Comma(left, right))?;
            Ok(Operand { value, rest })
        }
        Next::Leaf(_, _) | Next::End => Err(BuildError::Misfit),
    }
}

/// Behind a `[` and an index.
#[cycle(build)]
fn indexed<'a>(
    alloc: Global,
    array: Box<Expr>,
    place: Place,
    inner: &[Syntax],
    parts: &'a [Syntax],
) -> Result<Operand<'a>, BuildError>
    ensures ok { IfOk result (λ r. goes_on (Some Continuation.Index) (expr_tree array.value) place (node (built (parts_of inner.now)) ∷ parts_of parts.now) ≡ tail_of (expr_tree r.value.value) (parts_of r.rest.now)) }
    ensures less { IfOk result (λ r. size_of r.rest.now ≤ size_of parts.now) }
    ensures err { IfErr result (λ f. f ≢ BuildError.NoMemory → goes_on (Some Continuation.Index) (expr_tree array.value) place (node (built (parts_of inner.now)) ∷ parts_of parts.now) ≡ None) }
{
    let Next::Leaf(close, rest) = split(parts) else {
        return Err(BuildError::Misfit);
    };
    if !is(Mark::CloseBracket, close.kind) {
        return Err(BuildError::Misfit);
    }
    let at = expr_of(alloc, inner)?;
    let value = Box::new(alloc, Expr::Index(array, place, at))?;
    Ok(Operand { value, rest })
}

/// Behind a `[`.
#[cycle(build)]
fn with_index<'a>(
    alloc: Global,
    array: Box<Expr>,
    place: Place,
    parts: &'a [Syntax],
) -> Result<Operand<'a>, BuildError>
    ensures ok { IfOk result (λ r. goes_on (Some Continuation.Index) (expr_tree array.value) place (parts_of parts.now) ≡ tail_of (expr_tree r.value.value) (parts_of r.rest.now)) }
    ensures less { IfOk result (λ r. size_of r.rest.now ≤ size_of parts.now) }
    ensures err { IfErr result (λ f. f ≢ BuildError.NoMemory → goes_on (Some Continuation.Index) (expr_tree array.value) place (parts_of parts.now) ≡ None) }
{
    match split(parts) {
        Next::Node(inner, behind) => {
            let whole = indexed(alloc, array, place, inner, behind)?;
            Ok(whole)
        }
        Next::Leaf(_, _) | Next::End => Err(BuildError::Misfit),
    }
}

/// Behind a `?` and an expression.
#[cycle(build)]
fn chosen<'a>(
    alloc: Global,
    test: Box<Expr>,
    place: Place,
    inner: &[Syntax],
    parts: &'a [Syntax],
) -> Result<Operand<'a>, BuildError>
    ensures ok { IfOk result (λ r. goes_on (Some Continuation.Conditional) (expr_tree test.value) place (node (built (parts_of inner.now)) ∷ parts_of parts.now) ≡ tail_of (expr_tree r.value.value) (parts_of r.rest.now)) }
    ensures less { IfOk result (λ r. size_of r.rest.now ≤ size_of parts.now) }
    ensures err { IfErr result (λ f. f ≢ BuildError.NoMemory → goes_on (Some Continuation.Conditional) (expr_tree test.value) place (node (built (parts_of inner.now)) ∷ parts_of parts.now) ≡ None) }
{
    let Next::Leaf(colon, behind) = split(parts) else {
        return Err(BuildError::Misfit);
    };
    let Next::Node(last, rest) = split(behind) else {
        return Err(BuildError::Misfit);
    };
    if !is(Mark::Colon, colon.kind) {
        return Err(BuildError::Misfit);
    }
    let yes = expr_of(alloc, inner)?;
    let no = expr_of(alloc, last)?;
    let value = Box::new(alloc, Expr::Conditional(test, place, yes, no))?;
    Ok(Operand { value, rest })
}

/// Behind a `?`.
#[cycle(build)]
fn with_choice<'a>(
    alloc: Global,
    test: Box<Expr>,
    place: Place,
    parts: &'a [Syntax],
) -> Result<Operand<'a>, BuildError>
    ensures ok { IfOk result (λ r. goes_on (Some Continuation.Conditional) (expr_tree test.value) place (parts_of parts.now) ≡ tail_of (expr_tree r.value.value) (parts_of r.rest.now)) }
    ensures less { IfOk result (λ r. size_of r.rest.now ≤ size_of parts.now) }
    ensures err { IfErr result (λ f. f ≢ BuildError.NoMemory → goes_on (Some Continuation.Conditional) (expr_tree test.value) place (parts_of parts.now) ≡ None) }
{
    match split(parts) {
        Next::Node(inner, behind) => {
            let whole = chosen(alloc, test, place, inner, behind)?;
            Ok(whole)
        }
        Next::Leaf(_, _) | Next::End => Err(BuildError::Misfit),
    }
}

/// Behind `.` or `->`.
fn with_member<'a>(
    alloc: Global,
    whole: Box<Expr>,
    operator: MemberOperator,
    place: Place,
    parts: &'a [Syntax],
) -> Result<Operand<'a>, BuildError>
    ensures ok { IfOk result (λ r. goes_on (Some (Continuation.Member operator)) (expr_tree whole.value) place (parts_of parts.now) ≡ tail_of (expr_tree r.value.value) (parts_of r.rest.now)) }
    ensures less { IfOk result (λ r. size_of r.rest.now ≤ size_of parts.now) }
    ensures err { IfErr result (λ f. f ≢ BuildError.NoMemory → goes_on (Some (Continuation.Member operator)) (expr_tree whole.value) place (parts_of parts.now) ≡ None) }
{
    let Next::Leaf(token, rest) = split(parts) else {
        return Err(BuildError::Misfit);
    };
    let TokenKind::Word(name) = token.kind else {
        return Err(BuildError::Misfit);
    };
    let value = Box::new(
        alloc,
        Expr::Member(whole, operator, place, name, token.place),
    )?;
    Ok(Operand { value, rest })
}

/// Behind `++` or `--`.
#[tactic(auto, using(crate::proofs::Tails::tails))]
fn with_update<'a>(
    alloc: Global,
    operand: Box<Expr>,
    operator: UpdateOperator,
    place: Place,
    parts: &'a [Syntax],
) -> Result<Operand<'a>, BuildError>
    ensures ok { IfOk result (λ r. goes_on (Some (Continuation.Update operator)) (expr_tree operand.value) place (parts_of parts.now) ≡ tail_of (expr_tree r.value.value) (parts_of r.rest.now)) }
    ensures less { IfOk result (λ r. size_of r.rest.now ≤ size_of parts.now) }
    ensures err { IfErr result (λ f. f ≢ BuildError.NoMemory → goes_on (Some (Continuation.Update operator)) (expr_tree operand.value) place (parts_of parts.now) ≡ None) }
{
    let value = Box::new(alloc, Expr::PostUpdate(operand, operator, place))?;
    Ok(Operand { value, rest: parts })
}

/// Behind an argument.
#[cycle(build)]
#[tactic(auto, using(l2_tree::proofs::Expressions::expressions))]
fn behind_argument<'a>(
    alloc: Global,
    function: Box<Expr>,
    place: Place,
    arguments: Vec<Expr>,
    parts: &'a [Syntax],
) -> Result<Operand<'a>, BuildError>
    ensures ok { IfOk result (λ r. arguments_of (expr_tree function.value) place (exprs_onto no_exprs arguments.items) (parts_of parts.now) ≡ tail_of (expr_tree r.value.value) (parts_of r.rest.now)) }
    ensures less { IfOk result (λ r. size_of r.rest.now ≤ size_of parts.now) }
    ensures err { IfErr result (λ f. f ≢ BuildError.NoMemory → arguments_of (expr_tree function.value) place (exprs_onto no_exprs arguments.items) (parts_of parts.now) ≡ None) }
{
    let mut all = arguments;
    let mut left = parts;
    loop {
        let Next::Leaf(mark, behind) = split(left) else {
            return Err(BuildError::Misfit);
        };
        if is(Mark::CloseParenthesis, mark.kind) {
            let value = call(alloc, function, place, all)?;
            return Ok(Operand {
                value,
                rest: behind,
            });
        }
        if !is(Mark::Comma, mark.kind) {
            return Err(BuildError::Misfit);
        }
        let Next::Node(inner, rest) = split(behind) else {
            return Err(BuildError::Misfit);
        };
        let argument = expr_of(alloc, inner)?;
        all.push(Box::into_inner(argument))?;
        left = rest;
    }
}

/// Behind the `(` of a call.
#[cycle(build)]
#[tactic(auto, using(l2_tree::proofs::Expressions::expressions))]
fn with_call<'a>(
    alloc: Global,
    function: Box<Expr>,
    place: Place,
    parts: &'a [Syntax],
) -> Result<Operand<'a>, BuildError>
    ensures ok { IfOk result (λ r. goes_on (Some Continuation.Call) (expr_tree function.value) place (parts_of parts.now) ≡ tail_of (expr_tree r.value.value) (parts_of r.rest.now)) }
    ensures less { IfOk result (λ r. size_of r.rest.now ≤ size_of parts.now) }
    ensures err { IfErr result (λ f. f ≢ BuildError.NoMemory → goes_on (Some Continuation.Call) (expr_tree function.value) place (parts_of parts.now) ≡ None) }
{
    match split(parts) {
        Next::Leaf(close, rest) => {
            if !is(Mark::CloseParenthesis, close.kind) {
                return Err(BuildError::Misfit);
            }
            let value = call(alloc, function, place, Vec::new(alloc))?;
            Ok(Operand { value, rest })
        }
        Next::Node(inner, rest) => {
            let argument = expr_of(alloc, inner)?;
            let mut arguments = Vec::new(alloc);
            arguments.push(Box::into_inner(argument))?;
            behind_argument(alloc, function, place, arguments, rest)
        }
        Next::End => Err(BuildError::Misfit),
    }
}

/// Behind an operand and the token with which the expression goes on.
#[cycle(build)]
fn continued<'a>(
    alloc: Global,
    continuation: Continuation,
    value: Box<Expr>,
    place: Place,
    parts: &'a [Syntax],
) -> Result<Operand<'a>, BuildError>
    ensures ok { IfOk result (λ r. goes_on (Some continuation) (expr_tree value.value) place (parts_of parts.now) ≡ tail_of (expr_tree r.value.value) (parts_of r.rest.now)) }
    ensures less { IfOk result (λ r. size_of r.rest.now ≤ size_of parts.now) }
    ensures err { IfErr result (λ f. f ≢ BuildError.NoMemory → goes_on (Some continuation) (expr_tree value.value) place (parts_of parts.now) ≡ None) }
{
    match continuation {
        Continuation::Index => with_index(alloc, value, place, parts),
        Continuation::Call => with_call(alloc, value, place, parts),
        Continuation::Member(operator) => with_member(alloc, value, operator, place, parts),
        Continuation::Update(operator) => with_update(alloc, value, operator, place, parts),
        Continuation::Conditional => with_choice(alloc, value, place, parts),
        Continuation::Comma => with_comma(alloc, value, place, parts),
        Continuation::Binary(operator) => with_binary(alloc, value, operator, place, parts),
        Continuation::Assign(operator) => with_assignment(alloc, value, operator, place, parts),
    }
}

/// The expression of an operand and what stands behind it.
#[cycle(build)]
pub fn tail(alloc: Global, value: Box<Expr>, parts: &[Syntax]) -> Result<Box<Expr>, BuildError>
    ensures ok { IfOk result (λ e. tail_of (expr_tree value.value) (parts_of parts.now) ≡ Some (expr_tree e.value)) }
    ensures err { IfErr result (λ f. f ≢ BuildError.NoMemory → tail_of (expr_tree value.value) (parts_of parts.now) ≡ None) }
{
    let mut operand = value;
    let mut left = parts;
    loop {
        match split(left) {
            Next::End => return Ok(operand),
            Next::Node(_, _) => return Err(BuildError::Misfit),
            Next::Leaf(token, behind) => {
                let Some(continuation) = continuation_of(token.kind) else {
                    return Err(BuildError::Misfit);
                };
                let Operand { value, rest } = continued(
                    alloc,
                    continuation,
                    operand,
                    token.place,
                    behind,
                )?;
                operand = value;
                left = rest;
            }
        }
    }
}
