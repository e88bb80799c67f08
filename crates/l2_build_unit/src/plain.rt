// Statements without others in them.
ghost use Rattle.std.specs.Prelude.{◌≡◌, ◌≢◌, ◌≤◌, ◌∷◌, IfOk, IfErr, None, Some};
ghost use Rattle.l2_tree.specs.Build.{leaf, node, built, before_semicolon as before_semicolon_so, plain_stmt as as_plain, evaluated as evaluated_so, returns as returns_so, perhaps_until as perhaps_so, first as first_so, do_while as do_while_so, semicolon as semicolon_so, first_of as first_of_so};
ghost use Rattle.l2_tree.specs.Units.{stmt_tree, first_tree, perhaps_tree};
ghost use Rattle.l2_build.specs.Parts.{parts_of, size_of};
ghost use Rattle.l2_build_unit.specs.Statements.{perhaps_parts, first_expression};

use l2_build::{BuildError, Next, declaration_of, expr_of, specifies, split};
use l2_networks::is;
use l2_reader::Syntax;
use l2_syntax::{Mark, Place, Token};
use l2_tree::{Expr, First, Stmt};
use std::alloc::Global;

/// Perhaps an expression, and the parts behind the mark that follows.
#[derive(Drop)]
pub struct Perhaps<'a> {
    pub value: Option<Box<Expr>>,
    pub rest: &'a [Syntax],
}

/// The first part of a `for`, and the parts behind its semicolon.
#[derive(Drop)]
pub struct Started<'a> {
    pub first: First,
    pub rest: &'a [Syntax],
}

/// The parts before a last semicolon, if one stands last.
#[tactic(auto, using(crate::proofs::Lasts::lasts))]
fn before_semicolon<'a>(parts: &'a [Syntax]) -> Option<&'a [Syntax]>
    ensures { perhaps_parts result ≡ before_semicolon_so (parts_of parts.now) }
{
    let count = parts.len();
    if count == 0 {
        return None;
    }
    match &parts[count - 1] {
        Syntax::Token(token) => if is(Mark::Semicolon, token.kind) {
            Some(&parts[..count - 1])
        } else {
            None
        },
        Syntax::Construct(_, _) => None,
    }
}

fn evaluated(alloc: Global, parts: &[Syntax]) -> Result<Box<Stmt>, BuildError>
    ensures ok { IfOk result (λ t. evaluated_so (parts_of parts.now) ≡ Some (stmt_tree t.value)) }
    ensures err { IfErr result (λ e. e ≢ BuildError.NoMemory → evaluated_so (parts_of parts.now) ≡ None) }
{
    let Some(front) = before_semicolon(parts) else {
        return Err(BuildError::Misfit);
    };
    let value = expr_of(alloc, front)?;
    let whole = Box::new(alloc, Stmt::Expression(value))?;
    Ok(whole)
}

/// A declaration or an expression.
pub fn plain_stmt(alloc: Global, parts: &[Syntax]) -> Result<Box<Stmt>, BuildError>
    ensures ok { IfOk result (λ t. as_plain (parts_of parts.now) ≡ Some (stmt_tree t.value)) }
    ensures err { IfErr result (λ e. e ≢ BuildError.NoMemory → as_plain (parts_of parts.now) ≡ None) }
{
    if !specifies(parts) {
        let whole = evaluated(alloc, parts)?;
        return Ok(whole);
    }
    let declaration = declaration_of(alloc, parts)?;
    let whole = Box::new(alloc, Stmt::Declaration(Box::into_inner(declaration)))?;
    Ok(whole)
}

/// A statement that ends with a semicolon, where only that is left.
pub fn ended(alloc: Global, statement: Stmt, parts: &[Syntax]) -> Result<Box<Stmt>, BuildError>
    ensures ok { IfOk result (λ t. semicolon_so (parts_of parts.now) (stmt_tree statement) ≡ Some (stmt_tree t.value)) }
    ensures err { IfErr result (λ e. e ≢ BuildError.NoMemory → semicolon_so (parts_of parts.now) (stmt_tree statement) ≡ None) }
{
    let Next::Leaf(token, last) = split(parts) else {
        return Err(BuildError::Misfit);
    };
    if !is(Mark::Semicolon, token.kind) {
        return Err(BuildError::Misfit);
    }
    let Next::End = split(last) else {
        return Err(BuildError::Misfit);
    };
    let whole = Box::new(alloc, statement)?;
    Ok(whole)
}

/// Behind `return`.
pub fn returns(alloc: Global, place: Place, parts: &[Syntax]) -> Result<Box<Stmt>, BuildError>
    ensures ok { IfOk result (λ t. returns_so place (parts_of parts.now) ≡ Some (stmt_tree t.value)) }
    ensures err { IfErr result (λ e. e ≢ BuildError.NoMemory → returns_so place (parts_of parts.now) ≡ None) }
{
    match split(parts) {
        Next::Node(inner, rest) => {
            let value = expr_of(alloc, inner)?;
            let whole = ended(alloc, Stmt::ReturnValue(place, value), rest)?;
            Ok(whole)
        }
        Next::Leaf(_, _) => {
            let whole = ended(alloc, Stmt::Return(place), parts)?;
            Ok(whole)
        }
        Next::End => Err(BuildError::Misfit),
    }
}

/// A `do` with all its parts, if its marks are such and nothing is left.
fn do_with(
    alloc: Global,
    place: Place,
    body: Box<Stmt>,
    word: Token,
    bracket: Token,
    inner: &[Syntax],
    close: Token,
    end: Token,
    last: &[Syntax],
) -> Result<Box<Stmt>, BuildError>
    ensures ok { IfOk result (λ t. do_while_so place (stmt_tree body.value) (leaf word.kind word.place ∷ leaf bracket.kind bracket.place ∷ node (built (parts_of inner.now)) ∷ leaf close.kind close.place ∷ leaf end.kind end.place ∷ parts_of last.now) ≡ Some (stmt_tree t.value)) }
    ensures err { IfErr result (λ e. e ≢ BuildError.NoMemory → do_while_so place (stmt_tree body.value) (leaf word.kind word.place ∷ leaf bracket.kind bracket.place ∷ node (built (parts_of inner.now)) ∷ leaf close.kind close.place ∷ leaf end.kind end.place ∷ parts_of last.now) ≡ None) }
{
    if !is(Mark::While, word.kind) {
        return Err(BuildError::Misfit);
    }
    if !is(Mark::OpenParenthesis, bracket.kind) {
        return Err(BuildError::Misfit);
    }
    if !is(Mark::CloseParenthesis, close.kind) {
        return Err(BuildError::Misfit);
    }
    if !is(Mark::Semicolon, end.kind) {
        return Err(BuildError::Misfit);
    }
    let test = expr_of(alloc, inner)?;
    let Next::End = split(last) else {
        return Err(BuildError::Misfit);
    };
    let whole = Box::new(
        alloc,
        Stmt::Do(place, body, word.place, bracket.place, test),
    )?;
    Ok(whole)
}

/// A `do`, behind its test.
fn do_test(
    alloc: Global,
    place: Place,
    body: Box<Stmt>,
    word: Token,
    bracket: Token,
    inner: &[Syntax],
    parts: &[Syntax],
) -> Result<Box<Stmt>, BuildError>
    ensures ok { IfOk result (λ t. do_while_so place (stmt_tree body.value) (leaf word.kind word.place ∷ leaf bracket.kind bracket.place ∷ node (built (parts_of inner.now)) ∷ parts_of parts.now) ≡ Some (stmt_tree t.value)) }
    ensures err { IfErr result (λ e. e ≢ BuildError.NoMemory → do_while_so place (stmt_tree body.value) (leaf word.kind word.place ∷ leaf bracket.kind bracket.place ∷ node (built (parts_of inner.now)) ∷ parts_of parts.now) ≡ None) }
{
    let Next::Leaf(close, behind) = split(parts) else {
        return Err(BuildError::Misfit);
    };
    let Next::Leaf(semicolon, last) = split(behind) else {
        return Err(BuildError::Misfit);
    };
    let whole = do_with(
        alloc, place, body, word, bracket, inner, close, semicolon, last,
    )?;
    Ok(whole)
}

/// Behind `do` and its statement.
pub fn do_while(
    alloc: Global,
    place: Place,
    body: Box<Stmt>,
    parts: &[Syntax],
) -> Result<Box<Stmt>, BuildError>
    ensures ok { IfOk result (λ t. do_while_so place (stmt_tree body.value) (parts_of parts.now) ≡ Some (stmt_tree t.value)) }
    ensures err { IfErr result (λ e. e ≢ BuildError.NoMemory → do_while_so place (stmt_tree body.value) (parts_of parts.now) ≡ None) }
{
    let Next::Leaf(word, behind_word) = split(parts) else {
        return Err(BuildError::Misfit);
    };
    let Next::Leaf(bracket, behind_bracket) = split(behind_word) else {
        return Err(BuildError::Misfit);
    };
    let Next::Node(inner, rest) = split(behind_bracket) else {
        return Err(BuildError::Misfit);
    };
    let whole = do_test(alloc, place, body, word, bracket, inner, rest)?;
    Ok(whole)
}

/// Perhaps an expression, up to this mark.
pub fn perhaps_until<'a>(
    alloc: Global,
    mark: Mark,
    parts: &'a [Syntax],
) -> Result<Perhaps<'a>, BuildError>
    ensures ok { IfOk result (λ r. perhaps_so mark (parts_of parts.now) ≡ Some (perhaps_tree r.value, parts_of r.rest.now)) }
    ensures less { IfOk result (λ r. size_of r.rest.now ≤ size_of parts.now) }
    ensures err { IfErr result (λ e. e ≢ BuildError.NoMemory → perhaps_so mark (parts_of parts.now) ≡ None) }
{
    match split(parts) {
        Next::Leaf(token, rest) => {
            if !is(mark, token.kind) {
                return Err(BuildError::Misfit);
            }
            Ok(Perhaps { value: None, rest })
        }
        Next::Node(inner, behind) => {
            let Next::Leaf(token, rest) = split(behind) else {
                return Err(BuildError::Misfit);
            };
            if !is(mark, token.kind) {
                return Err(BuildError::Misfit);
            }
            let value = expr_of(alloc, inner)?;
            Ok(Perhaps {
                value: Some(value),
                rest,
            })
        }
        Next::End => Err(BuildError::Misfit),
    }
}

/// An expression as the first part of a `for`.
fn first_of(value: Option<Box<Expr>>) -> First
    ensures { first_tree result ≡ first_of_so (perhaps_tree value) }
{
    match value {
        None => First::Absent,
        Some(value) => First::Expression(value),
    }
}

/// Perhaps an expression as the first part of a `for`, with its semicolon.
fn first_plain<'a>(alloc: Global, parts: &'a [Syntax]) -> Result<Started<'a>, BuildError>
    ensures ok { IfOk result (λ r. first_expression (parts_of parts.now) ≡ Some (first_tree r.first, parts_of r.rest.now)) }
    ensures less { IfOk result (λ r. size_of r.rest.now ≤ size_of parts.now) }
    ensures err { IfErr result (λ e. e ≢ BuildError.NoMemory → first_expression (parts_of parts.now) ≡ None) }
{
    let Perhaps { value, rest } = perhaps_until(alloc, Mark::Semicolon, parts)?;
    Ok(Started {
        first: first_of(value),
        rest,
    })
}

/// The first part of a `for`, with its semicolon.
pub fn first_part<'a>(alloc: Global, parts: &'a [Syntax]) -> Result<Started<'a>, BuildError>
    ensures ok { IfOk result (λ r. first_so (parts_of parts.now) ≡ Some (first_tree r.first, parts_of r.rest.now)) }
    ensures less { IfOk result (λ r. size_of r.rest.now ≤ size_of parts.now) }
    ensures err { IfErr result (λ e. e ≢ BuildError.NoMemory → first_so (parts_of parts.now) ≡ None) }
{
    match split(parts) {
        Next::Node(inner, rest) => {
            if !specifies(inner) {
                let plain = first_plain(alloc, parts)?;
                return Ok(plain);
            }
            let declaration = declaration_of(alloc, inner)?;
            Ok(Started {
                first: First::Declaration(Box::into_inner(declaration)),
                rest,
            })
        }
        Next::Leaf(_, _) | Next::End => {
            let plain = first_plain(alloc, parts)?;
            Ok(plain)
        }
    }
}
