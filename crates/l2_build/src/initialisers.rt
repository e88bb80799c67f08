// Initialisers.
ghost use Rattle.std.specs.Prelude.{◌≡◌, ◌≢◌, IfOk, IfErr, None, Some};
ghost use Rattle.l2_tree.specs.Build.{initialiser_of as as_initialiser, behind_item as behind_item_so, only};
ghost use Rattle.l2_tree.specs.Trees.{first_initialiser, Braced as braced_tree};
ghost use Rattle.l2_tree.specs.Units.{initialiser_tree, initialisers_tree};
ghost use Rattle.l2_build.specs.Parts.{parts_of};

use crate::error::BuildError;
use crate::expressions::expr_of;
use crate::made::braced;
use crate::next::{Next, split};
use l2_networks::is;
use l2_reader::Syntax;
use l2_syntax::{Mark, Place};
use l2_tree::{Initialiser, Initialisers};
use std::alloc::Global;

/// Items in braces, where nothing stands behind the brace.
fn ended(
    alloc: Global,
    place: Place,
    all: Initialisers,
    comma: bool,
    parts: &[Syntax],
) -> Result<Box<Initialiser>, BuildError>
    ensures ok { IfOk result (λ i. only (parts_of parts.now) (braced_tree place (initialisers_tree all) comma) ≡ Some (initialiser_tree i.value)) }
    ensures err { IfErr result (λ e. e ≢ BuildError.NoMemory → only (parts_of parts.now) (braced_tree place (initialisers_tree all) comma) ≡ None) }
{
    let Next::End = split(parts) else {
        return Err(BuildError::Misfit);
    };
    let whole = braced(alloc, place, all, comma)?;
    Ok(whole)
}

/// Items in braces, behind the first of them.
#[cycle(build)]
#[tactic(auto, using(l2_tree::proofs::Declarations::declarations))]
fn behind_item(
    alloc: Global,
    place: Place,
    first: Box<Initialiser>,
    parts: &[Syntax],
) -> Result<Box<Initialiser>, BuildError>
    ensures ok { IfOk result (λ i. behind_item_so place (first_initialiser (initialiser_tree first.value)) (parts_of parts.now) ≡ Some (initialiser_tree i.value)) }
    ensures err { IfErr result (λ e. e ≢ BuildError.NoMemory → behind_item_so place (first_initialiser (initialiser_tree first.value)) (parts_of parts.now) ≡ None) }
{
    let mut others = Vec::new(alloc);
    let mut left = parts;
    loop {
        let Next::Leaf(mark, behind) = split(left) else {
            return Err(BuildError::Misfit);
        };
        if is(Mark::CloseBrace, mark.kind) {
            let all = Initialisers {
                first,
                rest: others,
            };
            let whole = ended(alloc, place, all, false, behind)?;
            return Ok(whole);
        }
        if !is(Mark::Comma, mark.kind) {
            return Err(BuildError::Misfit);
        }
        match split(behind) {
            Next::Node(inner, rest) => {
                let next = initialiser_of(alloc, inner)?;
                others.push(Box::into_inner(next))?;
                left = rest;
            }
            Next::Leaf(close, rest) => {
                if !is(Mark::CloseBrace, close.kind) {
                    return Err(BuildError::Misfit);
                }
                let all = Initialisers {
                    first,
                    rest: others,
                };
                let whole = ended(alloc, place, all, true, rest)?;
                return Ok(whole);
            }
            Next::End => return Err(BuildError::Misfit),
        }
    }
}

/// An initialiser (C11 6.7.9).
#[cycle(build)]
pub fn initialiser_of(alloc: Global, parts: &[Syntax]) -> Result<Box<Initialiser>, BuildError>
    ensures ok { IfOk result (λ i. as_initialiser (parts_of parts.now) ≡ Some (initialiser_tree i.value)) }
    ensures err { IfErr result (λ e. e ≢ BuildError.NoMemory → as_initialiser (parts_of parts.now) ≡ None) }
{
    let Next::Leaf(token, behind) = split(parts) else {
        return Err(BuildError::Misfit);
    };
    if !is(Mark::OpenBrace, token.kind) {
        let value = expr_of(alloc, parts)?;
        return Ok(Box::new(alloc, Initialiser::Expression(value))?);
    }
    let Next::Node(inner, rest) = split(behind) else {
        return Err(BuildError::Misfit);
    };
    let first = initialiser_of(alloc, inner)?;
    let whole = behind_item(alloc, token.place, first, rest)?;
    Ok(whole)
}
