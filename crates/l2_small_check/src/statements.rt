// Statements.
ghost use Rattle.std.specs.Prelude.{◌≡◌, Some, None, map, option_map, IfOk, IsErrOf};
ghost use Rattle.l2_small.specs.SmallTrees.{none, Initialise, Assign, Assert, small_expr_tree, small_stmt_tree, small_stmts_onto};
ghost use Rattle.l2_program.specs.Checked.{checked_tree};
ghost use Rattle.l2_small_check.specs.Elaboration.{item, items, within, is_declaration, body_of, made, block};
ghost use Rattle.l2_small_check.specs.Tables.{elaborated, Keeps};

use crate::error::CheckError;
use crate::expressions::typed;
use crate::make::{assertion, assignment, if_else, if_then, while_loop};
use crate::table::Table;
use l2_program::Checked;
use l2_small::{SmallExpr, SmallStmt};
use l2_syntax::Place;
use std::alloc::Global;

/// `int NAME = e;`.
#[tactic(auto, using(crate::proofs::Steps::steps, crate::proofs::Kept::kept))]
fn initialise(
    alloc: Global,
    table: &mut Table,
    name: u32,
    place: Place,
    e: &SmallExpr,
) -> Result<Checked, CheckError>
    ensures ok { IfOk result (λ t. item table.old.scope table.old.found (Initialise name place (small_expr_tree e.now)) ≡ Some (elaborated (checked_tree t) table.new)) }
    ensures not_small { IsErrOf result CheckError.NotSmall → item table.old.scope table.old.found (Initialise name place (small_expr_tree e.now)) ≡ None }
    ensures keeps { IfOk result (λ t. Keeps table.old.scope table.new.scope) }
{
    let object = table.declare(alloc, name, place)?;
    let start = typed(alloc, table, e)?;
    Ok(Checked::Initialise(object, start))
}

/// `NAME = e;`.
#[tactic(auto, using(crate::proofs::Steps::steps))]
fn assign(
    alloc: Global,
    table: &Table,
    name: u32,
    place: Place,
    e: &SmallExpr,
) -> Result<Checked, CheckError>
    ensures ok { IfOk result (λ t. item table.now.scope table.now.found (Assign name place (small_expr_tree e.now)) ≡ Some (elaborated (checked_tree t) table.now)) }
    ensures not_small { IsErrOf result CheckError.NotSmall → item table.now.scope table.now.found (Assign name place (small_expr_tree e.now)) ≡ None }
{
    match table.lookup(name) {
        Some(object) => {
            let value = typed(alloc, table, e)?;
            assignment(alloc, object, value)
        }
        None => Err(CheckError::NotSmall),
    }
}

/// `assert(e);`.
#[tactic(auto, using(crate::proofs::Steps::steps, crate::proofs::Kept::kept))]
fn assert_that(
    alloc: Global,
    table: &mut Table,
    place: Place,
    e: &SmallExpr,
) -> Result<Checked, CheckError>
    ensures ok { IfOk result (λ t. item table.old.scope table.old.found (Assert place (small_expr_tree e.now)) ≡ Some (elaborated (checked_tree t) table.new)) }
    ensures not_small { IsErrOf result CheckError.NotSmall → item table.old.scope table.old.found (Assert place (small_expr_tree e.now)) ≡ None }
    ensures keeps { IfOk result (λ t. Keeps table.old.scope table.new.scope) }
{
    let test = typed(alloc, table, e)?;
    let number = table.add_check(place)?;
    assertion(alloc, number, test)
}

/// What a statement becomes.
#[cycle(statements)]
#[tactic(auto, using(crate::proofs::Steps::steps, crate::proofs::Kept::kept))]
fn item(alloc: Global, table: &mut Table, s: &SmallStmt) -> Result<Checked, CheckError>
    ensures ok { IfOk result (λ t. item table.old.scope table.old.found (small_stmt_tree s.now) ≡ Some (elaborated (checked_tree t) table.new)) }
    ensures not_small { IsErrOf result CheckError.NotSmall → item table.old.scope table.old.found (small_stmt_tree s.now) ≡ None }
    ensures keeps { IfOk result (λ t. Keeps table.old.scope table.new.scope) }
{
    match s {
        SmallStmt::Block(all) => block(alloc, table, all),
        SmallStmt::Declare(name, place) => {
            let object = table.declare(alloc, *name, *place)?;
            Ok(Checked::Declare(object))
        }
        SmallStmt::Initialise(name, place, e) => initialise(alloc, table, *name, *place, e),
        SmallStmt::Assign(name, place, e) => assign(alloc, table, *name, *place, e),
        SmallStmt::If(e, s) => {
            let test = typed(alloc, table, e)?;
            let body = body(alloc, table, s)?;
            if_then(alloc, test, body)
        }
        SmallStmt::IfElse(e, s, z) => {
            let test = typed(alloc, table, e)?;
            let then = body(alloc, table, s)?;
            let other = body(alloc, table, z)?;
            if_else(alloc, test, then, other)
        }
        SmallStmt::While(place, e, s) => {
            let test = typed(alloc, table, e)?;
            let number = table.add_loop(alloc, *place)?;
            let body = body(alloc, table, s)?;
            while_loop(alloc, number, test, body)
        }
        SmallStmt::Assert(place, e) => assert_that(alloc, table, *place, e),
        SmallStmt::Return(e) => {
            let value = typed(alloc, table, e)?;
            Ok(Checked::Return(value))
        }
    }
}

/// What the statement of a branch or a loop becomes, whose names go out of scope at its end.
#[cycle(statements)]
#[tactic(auto, using(crate::proofs::Steps::steps, crate::proofs::Kept::kept))]
fn body(alloc: Global, table: &mut Table, s: &SmallStmt) -> Result<Checked, CheckError>
    ensures ok { IfOk result (λ t. body_of (small_stmt_tree s.now) (within table.old.scope (item table.old.scope table.old.found (small_stmt_tree s.now))) ≡ Some (elaborated (checked_tree t) table.new)) }
    ensures not_small { IsErrOf result CheckError.NotSmall → body_of (small_stmt_tree s.now) (within table.old.scope (item table.old.scope table.old.found (small_stmt_tree s.now))) ≡ None }
    ensures scope { IfOk result (λ t. table.new.scope ≡ table.old.scope) }
{
    if is_declaration(s) {
        return Err(CheckError::NotSmall);
    }
    let count = table.in_scope();
    let inside = item(alloc, table, s)?;
    table.leave(count);
    Ok(inside)
}

/// Whether a statement is a declaration.
fn is_declaration(s: &SmallStmt) -> bool
    ensures { result ≡ is_declaration (small_stmt_tree s.now) }
{
    match s {
        SmallStmt::Declare(_, _) => true,
        SmallStmt::Initialise(_, _, _) => true,
        SmallStmt::Block(_) => false,
        SmallStmt::Assign(_, _, _) => false,
        SmallStmt::If(_, _) => false,
        SmallStmt::IfElse(_, _, _) => false,
        SmallStmt::While(_, _, _) => false,
        SmallStmt::Assert(_, _) => false,
        SmallStmt::Return(_) => false,
    }
}

/// What a block becomes. Its names go out of scope at its end.
#[cycle(statements)]
#[tactic(auto, using(crate::proofs::Steps::steps, crate::proofs::Kept::kept))]
fn block(alloc: Global, table: &mut Table, all: &[SmallStmt]) -> Result<Checked, CheckError>
    ensures ok { IfOk result (λ t. option_map (made block) (within table.old.scope (items table.old.scope table.old.found (small_stmts_onto none all.now))) ≡ Some (elaborated (checked_tree t) table.new)) }
    ensures not_small { IsErrOf result CheckError.NotSmall → items table.old.scope table.old.found (small_stmts_onto none all.now) ≡ None }
    ensures scope { IfOk result (λ t. table.new.scope ≡ table.old.scope) }
{
    let outside = table.in_scope();
    let body = items(alloc, table, all)?;
    table.leave(outside);
    Ok(Checked::Block(body))
}

/// What statements become, one after another.
#[cycle(statements)]
#[tactic(auto, using(crate::proofs::Steps::steps, crate::proofs::Kept::kept))]
pub fn items(
    alloc: Global,
    table: &mut Table,
    all: &[SmallStmt],
) -> Result<Vec<Checked>, CheckError>
    ensures ok { IfOk result (λ out. items table.old.scope table.old.found (small_stmts_onto none all.now) ≡ Some (elaborated (map checked_tree out.items) table.new)) }
    ensures not_small { IsErrOf result CheckError.NotSmall → items table.old.scope table.old.found (small_stmts_onto none all.now) ≡ None }
    ensures keeps { IfOk result (λ t. Keeps table.old.scope table.new.scope) }
{
    let mut out = Vec::new(alloc);
    for s in all {
        let next = item(alloc, table, s)?;
        out.push(next)?;
    }
    Ok(out)
}
