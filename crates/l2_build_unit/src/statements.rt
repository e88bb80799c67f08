// Statements.
ghost use Rattle.std.specs.Prelude.{◌≡◌, ◌≢◌, IfOk, IfErr, None, Some};
ghost use Rattle.l2_tree.specs.Build.{items as items_so, led as led_so, stmt_of as as_stmt};
ghost use Rattle.l2_tree.specs.Trees.{no_stmts};
ghost use Rattle.l2_tree.specs.Units.{stmt_tree, stmts_onto};
ghost use Rattle.l2_build.specs.Parts.{parts_of};

use crate::branches::{choice, switch, while_loop};
use crate::loops::{case_of, do_loop, for_loop, labelled};
use crate::made::block;
use crate::plain::{ended, plain_stmt, returns};
use crate::starts::{label_of, leader_of};
use l2_build::{BuildError, Next, split};
use l2_networks::is;
use l2_reader::Syntax;
use l2_syntax::{Mark, Place};
use l2_tree::{Leader, Stmt};
use std::alloc::Global;

/// Items up to the closing brace, which is the last part.
#[cycle(build)]
#[tactic(auto, using(l2_tree::proofs::Statements::statements))]
pub fn items(alloc: Global, parts: &[Syntax]) -> Result<Vec<Stmt>, BuildError>
    ensures ok { IfOk result (λ all. items_so no_stmts (parts_of parts.now) ≡ Some (stmts_onto no_stmts all.items)) }
    ensures err { IfErr result (λ e. e ≢ BuildError.NoMemory → items_so no_stmts (parts_of parts.now) ≡ None) }
{
    let mut all = Vec::new(alloc);
    let mut left = parts;
    loop {
        match split(left) {
            Next::Node(inner, rest) => {
                let item = stmt_of(alloc, inner)?;
                all.push(Box::into_inner(item))?;
                left = rest;
            }
            Next::Leaf(close, rest) => {
                if !is(Mark::CloseBrace, close.kind) {
                    return Err(BuildError::Misfit);
                }
                let Next::End = split(rest) else {
                    return Err(BuildError::Misfit);
                };
                return Ok(all);
            }
            Next::End => return Err(BuildError::Misfit),
        }
    }
}

/// A block, behind its brace.
#[cycle(build)]
fn block_of(alloc: Global, place: Place, parts: &[Syntax]) -> Result<Box<Stmt>, BuildError>
    ensures ok { IfOk result (λ t. led_so Leader.Block place (parts_of parts.now) ≡ Some (stmt_tree t.value)) }
    ensures err { IfErr result (λ e. e ≢ BuildError.NoMemory → led_so Leader.Block place (parts_of parts.now) ≡ None) }
{
    let all = items(alloc, parts)?;
    let whole = block(alloc, place, all)?;
    Ok(whole)
}

/// `;`.
fn empty(alloc: Global, place: Place, parts: &[Syntax]) -> Result<Box<Stmt>, BuildError>
    ensures ok { IfOk result (λ t. led_so Leader.Empty place (parts_of parts.now) ≡ Some (stmt_tree t.value)) }
    ensures err { IfErr result (λ e. e ≢ BuildError.NoMemory → led_so Leader.Empty place (parts_of parts.now) ≡ None) }
{
    let _ = place;
    let Next::End = split(parts) else {
        return Err(BuildError::Misfit);
    };
    let whole = Box::new(alloc, Stmt::Empty)?;
    Ok(whole)
}

/// Behind `default`.
#[cycle(build)]
fn default_of(alloc: Global, place: Place, parts: &[Syntax]) -> Result<Box<Stmt>, BuildError>
    ensures ok { IfOk result (λ t. led_so Leader.Default place (parts_of parts.now) ≡ Some (stmt_tree t.value)) }
    ensures err { IfErr result (λ e. e ≢ BuildError.NoMemory → led_so Leader.Default place (parts_of parts.now) ≡ None) }
{
    let body = labelled(alloc, parts)?;
    let whole = Box::new(alloc, Stmt::Default(place, body))?;
    Ok(whole)
}

/// A statement, behind the token with which it begins.
#[cycle(build)]
fn led(
    alloc: Global,
    leader: Leader,
    place: Place,
    parts: &[Syntax],
) -> Result<Box<Stmt>, BuildError>
    ensures ok { IfOk result (λ t. led_so leader place (parts_of parts.now) ≡ Some (stmt_tree t.value)) }
    ensures err { IfErr result (λ e. e ≢ BuildError.NoMemory → led_so leader place (parts_of parts.now) ≡ None) }
{
    match leader {
        Leader::Block => block_of(alloc, place, parts),
        Leader::Empty => empty(alloc, place, parts),
        Leader::If => choice(alloc, place, parts),
        Leader::While => while_loop(alloc, place, parts),
        Leader::Switch => switch(alloc, place, parts),
        Leader::Do => do_loop(alloc, place, parts),
        Leader::For => for_loop(alloc, place, parts),
        Leader::Case => case_of(alloc, place, parts),
        Leader::Default => default_of(alloc, place, parts),
        Leader::Break => ended(alloc, Stmt::Break(place), parts),
        Leader::Continue => ended(alloc, Stmt::Continue(place), parts),
        Leader::Return => returns(alloc, place, parts),
    }
}

/// A statement, or a declaration in a block (C11 6.8), from all parts of its construct. `Misfit` where they are those of none.
#[cycle(build)]
pub fn stmt_of(alloc: Global, parts: &[Syntax]) -> Result<Box<Stmt>, BuildError>
    ensures ok { IfOk result (λ t. as_stmt (parts_of parts.now) ≡ Some (stmt_tree t.value)) }
    ensures err { IfErr result (λ e. e ≢ BuildError.NoMemory → as_stmt (parts_of parts.now) ≡ None) }
{
    let Next::Leaf(token, rest) = split(parts) else {
        return Err(BuildError::Misfit);
    };
    if let Some(leader) = leader_of(token.kind) {
        let whole = led(alloc, leader, token.place, rest)?;
        return Ok(whole);
    }
    if let Some(name) = label_of(token.kind, rest) {
        let body = labelled(alloc, rest)?;
        let whole = Box::new(alloc, Stmt::Label(name, token.place, body))?;
        return Ok(whole);
    }
    let whole = plain_stmt(alloc, parts)?;
    Ok(whole)
}
