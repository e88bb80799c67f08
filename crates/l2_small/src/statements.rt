// Statements.
ghost use Rattle.std.specs.Prelude.{◌≡◌, Some, None, IfOk, IsErrOf};
ghost use Rattle.l2_tree.specs.Trees.{no_exprs, and_expr, no_stmts};
ghost use Rattle.l2_tree.specs.Units.{expr_tree, exprs_onto, stmt_tree, stmts_onto, branches_tree};
ghost use Rattle.l2_small.specs.SmallTrees.{none, small_expr_tree, small_stmt_tree, small_stmts_onto};
ghost use Rattle.l2_small.specs.SmallForm.{is_plain, small_assign, small_assert, small_effect, small_stmt, branch_with, small_branch, small_block, small_stmts};

use crate::declarations::declaration;
use crate::error::SmallError;
use crate::expressions::{small_expr, word_of};
use crate::make::{if_else, if_then, while_loop};
use crate::tree::{SmallExpr, SmallStmt};
use crate::words::{Word, is_assert, is_variable};
use l2_syntax::Name;
use l2_tree::{AssignmentOperator, Branch, Expr, Stmt};
use std::alloc::Global;

/// What an `if` tests, and its block.
#[derive(Drop)]
struct SmallBranch {
    test: SmallExpr,
    body: SmallStmt,
}

/// Whether an operator is `=`.
fn is_plain(operator: AssignmentOperator) -> bool
    ensures { result ≡ is_plain operator }
{
    match operator {
        AssignmentOperator::Assign => true,
        AssignmentOperator::Multiply
        | AssignmentOperator::Divide
        | AssignmentOperator::Remainder
        | AssignmentOperator::Add
        | AssignmentOperator::Subtract => false,
        AssignmentOperator::ShiftLeft
        | AssignmentOperator::ShiftRight
        | AssignmentOperator::BitAnd
        | AssignmentOperator::BitXor
        | AssignmentOperator::BitOr => false,
    }
}

/// `NAME = e;`.
#[tactic(auto, using(crate::proofs::Steps::steps))]
fn assign(
    alloc: Global,
    names: &[Name],
    target: Option<Word>,
    operator: AssignmentOperator,
    value: &Expr,
) -> Result<SmallStmt, SmallError>
    ensures ok { IfOk result (λ r. small_assign names.now target operator (expr_tree value.now) ≡ Some (small_stmt_tree r)) }
    ensures not_small { IsErrOf result SmallError.NotSmall → small_assign names.now target operator (expr_tree value.now) ≡ None }
{
    match target {
        Some(word) => {
            if !is_plain(operator) {
                Err(SmallError::NotSmall)
            } else if is_variable(names, word.name) {
                let value = small_expr(alloc, names, value)?;
                Ok(SmallStmt::Assign(word.name, word.place, value))
            } else {
                Err(SmallError::NotSmall)
            }
        }
        None => Err(SmallError::NotSmall),
    }
}

/// `assert(e);`, by its one argument.
#[tactic(auto, using(crate::proofs::Steps::steps))]
fn assert_that(
    alloc: Global,
    names: &[Name],
    word: Word,
    test: &Expr,
) -> Result<SmallStmt, SmallError>
    ensures ok { IfOk result (λ r. small_assert names.now (Some word) (and_expr no_exprs (expr_tree test.now)) ≡ Some (small_stmt_tree r)) }
    ensures not_small { IsErrOf result SmallError.NotSmall → small_assert names.now (Some word) (and_expr no_exprs (expr_tree test.now)) ≡ None }
{
    if is_assert(names, word.name) {
        let test = small_expr(alloc, names, test)?;
        Ok(SmallStmt::Assert(word.place, test))
    } else {
        Err(SmallError::NotSmall)
    }
}

/// `assert(e);`.
#[tactic(auto, using(crate::proofs::Lists::asserted))]
fn assertion(
    alloc: Global,
    names: &[Name],
    function: Option<Word>,
    given: &[Expr],
) -> Result<SmallStmt, SmallError>
    ensures ok { IfOk result (λ r. small_assert names.now function (exprs_onto no_exprs given.now) ≡ Some (small_stmt_tree r)) }
    ensures not_small { IsErrOf result SmallError.NotSmall → small_assert names.now function (exprs_onto no_exprs given.now) ≡ None }
{
    match function {
        Some(word) => match given {
            [only] => assert_that(alloc, names, word, only),
            _ => Err(SmallError::NotSmall),
        },
        None => Err(SmallError::NotSmall),
    }
}

/// The small tree of an expression as a statement.
#[tactic(auto, using(crate::proofs::Lists::effects))]
fn effect(alloc: Global, names: &[Name], e: &Expr) -> Result<SmallStmt, SmallError>
    ensures ok { IfOk result (λ r. small_effect names.now (expr_tree e.now) ≡ Some (small_stmt_tree r)) }
    ensures not_small { IsErrOf result SmallError.NotSmall → small_effect names.now (expr_tree e.now) ≡ None }
{
    match e {
        Expr::Assign(target, operator, _, value) => {
            assign(alloc, names, word_of(target), *operator, value)
        }
        Expr::Call(function, _, given) => assertion(alloc, names, word_of(function), given),
        Expr::Name(..)
        | Expr::Number(..)
        | Expr::Text(..)
        | Expr::Parenthesised(..)
        | Expr::Index(..)
        | Expr::Member(..)
        | Expr::PostUpdate(..)
        | Expr::Update(..) => Err(SmallError::NotSmall),
        Expr::Unary(..)
        | Expr::Sizeof(..)
        | Expr::SizeofType(..)
        | Expr::Cast(..)
        | Expr::Binary(..)
        | Expr::Conditional(..)
        | Expr::Comma(..) => Err(SmallError::NotSmall),
    }
}

/// The small tree of a statement.
#[cycle(statements)]
#[tactic(auto, using(crate::proofs::Steps::steps, crate::proofs::Lists::ifs))]
fn statement(alloc: Global, names: &[Name], s: &Stmt) -> Result<SmallStmt, SmallError>
    ensures ok { IfOk result (λ r. small_stmt names.now (stmt_tree s.now) ≡ Some (small_stmt_tree r)) }
    ensures not_small { IsErrOf result SmallError.NotSmall → small_stmt names.now (stmt_tree s.now) ≡ None }
{
    match s {
        Stmt::Declaration(d) => declaration(alloc, names, d),
        Stmt::Expression(e) => effect(alloc, names, e),
        Stmt::If(only, others) => {
            let first = branch(alloc, names, only, others)?;
            if_then(alloc, first.test, first.body)
        }
        Stmt::IfElse(only, others, other) => {
            let first = branch(alloc, names, only, others)?;
            let last = block(alloc, names, other)?;
            if_else(alloc, first.test, first.body, last)
        }
        Stmt::While(place, _, e, s) => {
            let test = small_expr(alloc, names, e)?;
            let body = block(alloc, names, s)?;
            while_loop(alloc, *place, test, body)
        }
        Stmt::ReturnValue(_, e) => {
            let value = small_expr(alloc, names, e)?;
            Ok(SmallStmt::Return(value))
        }
        Stmt::Block(..)
        | Stmt::Empty
        | Stmt::Switch(..)
        | Stmt::Do(..)
        | Stmt::For(..)
        | Stmt::Case(..) => Err(SmallError::NotSmall),
        Stmt::Default(..)
        | Stmt::Label(..)
        | Stmt::Break(..)
        | Stmt::Continue(..)
        | Stmt::Return(..) => Err(SmallError::NotSmall),
    }
}

/// `if (e) { .. }`, and no `else if` behind it.
#[cycle(statements)]
#[tactic(auto, using(crate::proofs::Steps::steps, crate::proofs::Lists::branches))]
fn branch(
    alloc: Global,
    names: &[Name],
    only: &Branch,
    others: &[Branch],
) -> Result<SmallBranch, SmallError>
    ensures ok { IfOk result (λ r. small_branch names.now (branches_tree only.now others.now) ≡ Some (branch_with (small_expr_tree r.test) (small_stmt_tree r.body))) }
    ensures not_small { IsErrOf result SmallError.NotSmall → small_branch names.now (branches_tree only.now others.now) ≡ None }
{
    if others.is_empty() {
        let test = small_expr(alloc, names, &only.condition)?;
        let body = block(alloc, names, &only.body)?;
        Ok(SmallBranch { test, body })
    } else {
        Err(SmallError::NotSmall)
    }
}

/// `{ .. }`, the body of a statement.
#[cycle(statements)]
#[tactic(auto, using(crate::proofs::Steps::steps, crate::proofs::Lists::blocks))]
fn block(alloc: Global, names: &[Name], s: &Stmt) -> Result<SmallStmt, SmallError>
    ensures ok { IfOk result (λ r. small_block names.now (stmt_tree s.now) ≡ Some (small_stmt_tree r)) }
    ensures not_small { IsErrOf result SmallError.NotSmall → small_block names.now (stmt_tree s.now) ≡ None }
{
    match s {
        Stmt::Block(_, all) => {
            let items = statements(alloc, names, all)?;
            Ok(SmallStmt::Block(items))
        }
        Stmt::Declaration(..)
        | Stmt::Expression(..)
        | Stmt::Empty
        | Stmt::If(..)
        | Stmt::IfElse(..)
        | Stmt::While(..)
        | Stmt::Switch(..)
        | Stmt::Do(..) => Err(SmallError::NotSmall),
        Stmt::For(..)
        | Stmt::Case(..)
        | Stmt::Default(..)
        | Stmt::Label(..)
        | Stmt::Break(..)
        | Stmt::Continue(..)
        | Stmt::Return(..)
        | Stmt::ReturnValue(..) => Err(SmallError::NotSmall),
    }
}

/// The small trees of statements, one after another.
#[cycle(statements)]
#[tactic(auto, using(crate::proofs::Steps::steps, crate::proofs::Rows::rows))]
pub fn statements(alloc: Global, names: &[Name], all: &[Stmt]) -> Result<Vec<SmallStmt>, SmallError>
    ensures ok { IfOk result (λ r. small_stmts names.now (stmts_onto no_stmts all.now) ≡ Some (small_stmts_onto none r.items)) }
    ensures not_small { IsErrOf result SmallError.NotSmall → small_stmts names.now (stmts_onto no_stmts all.now) ≡ None }
{
    let mut out = Vec::new(alloc);
    for s in all {
        let next = statement(alloc, names, s)?;
        out.push(next)?;
    }
    Ok(out)
}
