// Other statements with one in them.
ghost use Rattle.std.specs.Prelude.{◌≡◌, ◌≢◌, ◌∷◌, IfOk, IfErr, None, Some};
ghost use Rattle.l2_tree.specs.Build.{leaf, node, built, does as does_so, loops as loops_so, for_body as for_body_so, labelled as labelled_so, case_of as as_case};
ghost use Rattle.l2_tree.specs.Trees.{StmtTree};
ghost use Rattle.l2_tree.specs.Units.{stmt_tree, first_tree, perhaps_tree};
ghost use Rattle.l2_build.specs.Parts.{parts_of};

use crate::plain::{Perhaps, Started, do_while, first_part, perhaps_until};
use crate::statements::stmt_of;
use l2_build::{BuildError, Next, expr_of, split};
use l2_networks::is;
use l2_reader::Syntax;
use l2_syntax::{Mark, Place, Token};
use l2_tree::{Expr, First, Stmt};
use std::alloc::Global;

/// Behind `do`.
#[cycle(build)]
pub fn do_loop(alloc: Global, place: Place, parts: &[Syntax]) -> Result<Box<Stmt>, BuildError>
    ensures ok { IfOk result (λ t. does_so place (parts_of parts.now) ≡ Some (stmt_tree t.value)) }
    ensures err { IfErr result (λ e. e ≢ BuildError.NoMemory → does_so place (parts_of parts.now) ≡ None) }
{
    let Next::Node(inner, rest) = split(parts) else {
        return Err(BuildError::Misfit);
    };
    let body = stmt_of(alloc, inner)?;
    let whole = do_while(alloc, place, body, rest)?;
    Ok(whole)
}

/// The body of a `for`, behind its head.
#[cycle(build)]
fn for_body(
    alloc: Global,
    place: Place,
    bracket: Place,
    first: First,
    test: Option<Box<Expr>>,
    step: Option<Box<Expr>>,
    parts: &[Syntax],
) -> Result<Box<Stmt>, BuildError>
    ensures ok { IfOk result (λ t. for_body_so place bracket (first_tree first) (perhaps_tree test) (perhaps_tree step) (parts_of parts.now) ≡ Some (stmt_tree t.value)) }
    ensures err { IfErr result (λ e. e ≢ BuildError.NoMemory → for_body_so place bracket (first_tree first) (perhaps_tree test) (perhaps_tree step) (parts_of parts.now) ≡ None) }
{
    let Next::Node(inner, rest) = split(parts) else {
        return Err(BuildError::Misfit);
    };
    let body = stmt_of(alloc, inner)?;
    let Next::End = split(rest) else {
        return Err(BuildError::Misfit);
    };
    let whole = Box::new(alloc, Stmt::For(place, bracket, first, test, step, body))?;
    Ok(whole)
}

/// Behind `for`.
#[cycle(build)]
pub fn for_loop(alloc: Global, place: Place, parts: &[Syntax]) -> Result<Box<Stmt>, BuildError>
    ensures ok { IfOk result (λ t. loops_so place (parts_of parts.now) ≡ Some (stmt_tree t.value)) }
    ensures err { IfErr result (λ e. e ≢ BuildError.NoMemory → loops_so place (parts_of parts.now) ≡ None) }
{
    let Next::Leaf(bracket, behind) = split(parts) else {
        return Err(BuildError::Misfit);
    };
    if !is(Mark::OpenParenthesis, bracket.kind) {
        return Err(BuildError::Misfit);
    }
    let Started {
        first,
        rest: second,
    } = first_part(alloc, behind)?;
    let Perhaps {
        value: test,
        rest: third,
    } = perhaps_until(alloc, Mark::Semicolon, second)?;
    let Perhaps {
        value: step,
        rest: last,
    } = perhaps_until(alloc, Mark::CloseParenthesis, third)?;
    let whole = for_body(alloc, place, bracket.place, first, test, step, last)?;
    Ok(whole)
}

/// The statement behind a label, behind the colon.
#[cycle(build)]
fn labelled_by(
    alloc: Global,
    colon: Token,
    inner: &[Syntax],
    parts: &[Syntax],
) -> Result<Box<Stmt>, BuildError>
    ensures ok { IfOk result (λ t. (f : StmtTree → StmtTree) → labelled_so f (leaf colon.kind colon.place ∷ node (built (parts_of inner.now)) ∷ parts_of parts.now) ≡ Some (f (stmt_tree t.value))) }
    ensures err { IfErr result (λ e. e ≢ BuildError.NoMemory → (f : StmtTree → StmtTree) → labelled_so f (leaf colon.kind colon.place ∷ node (built (parts_of inner.now)) ∷ parts_of parts.now) ≡ None) }
{
    if !is(Mark::Colon, colon.kind) {
        return Err(BuildError::Misfit);
    }
    let whole = stmt_of(alloc, inner)?;
    let Next::End = split(parts) else {
        return Err(BuildError::Misfit);
    };
    Ok(whole)
}

/// The statement behind a label, from the colon on.
#[cycle(build)]
pub fn labelled(alloc: Global, parts: &[Syntax]) -> Result<Box<Stmt>, BuildError>
    ensures ok { IfOk result (λ t. (f : StmtTree → StmtTree) → labelled_so f (parts_of parts.now) ≡ Some (f (stmt_tree t.value))) }
    ensures err { IfErr result (λ e. e ≢ BuildError.NoMemory → (f : StmtTree → StmtTree) → labelled_so f (parts_of parts.now) ≡ None) }
{
    let Next::Leaf(colon, behind) = split(parts) else {
        return Err(BuildError::Misfit);
    };
    let Next::Node(inner, rest) = split(behind) else {
        return Err(BuildError::Misfit);
    };
    let whole = labelled_by(alloc, colon, inner, rest)?;
    Ok(whole)
}

/// Behind `case`.
#[cycle(build)]
pub fn case_of(alloc: Global, place: Place, parts: &[Syntax]) -> Result<Box<Stmt>, BuildError>
    ensures ok { IfOk result (λ t. as_case place (parts_of parts.now) ≡ Some (stmt_tree t.value)) }
    ensures err { IfErr result (λ e. e ≢ BuildError.NoMemory → as_case place (parts_of parts.now) ≡ None) }
{
    let Next::Node(inner, rest) = split(parts) else {
        return Err(BuildError::Misfit);
    };
    let value = expr_of(alloc, inner)?;
    let body = labelled(alloc, rest)?;
    let whole = Box::new(alloc, Stmt::Case(place, value, body))?;
    Ok(whole)
}
