// Statements.
ghost use Rattle.std.specs.Prelude.{◌≡◌, IfOk};
ghost use Rattle.l2_tree.specs.Trees.{no_stmts, If, IfElse, While, Do, For, Switch, Case};
ghost use Rattle.l2_tree.specs.Units.{expr_tree, stmt_tree, stmts_onto, branch_tree, branches_tree, first_tree, perhaps_tree};
ghost use Rattle.l2_types.specs.States.{saw, next};
ghost use Rattle.l2_types.specs.Meant.{valued};
ghost use Rattle.l2_types_expr.specs.Expressions.{judge};
ghost use Rattle.l2_types_statements.specs.Parts.{evaluated};
ghost use Rattle.l2_types_statements.specs.Trees.{checked_tree, checked_onto, no_statements, arm_tree, arms_onto, no_arms};
ghost use Rattle.l2_types_statements.specs.Statements.{first_part, statement, body, items, branch, branches};

use crate::checked::{Arm, Checked, Setting};
use crate::made::{block, if_else, if_of};
use crate::parts::{
    case_label, case_value, cases_of, declared, default_label, evaluated, nothing_returned,
    perhaps_evaluated, perhaps_tested, returned, switched, tested, unless_may,
};
use crate::settings::{apart, behind_label, inside, looping, switching};
use l2_bits::List;
use l2_syntax::Place;
use l2_tree::{Branch, Expr, First, Stmt};
use l2_tree_names::first_place;
use l2_types::{CheckError, Table};
use l2_types_declarations::declaration;
use l2_types_expr::{constant, judge};
use l2_values::value_of;
use std::alloc::Global;

/// An expression statement.
#[tactic(auto, using(l2_types::proofs::Steps::steps))]
fn expression(alloc: Global, table: &mut Table, e: &Expr) -> Result<Checked, CheckError>
    ensures ok { IfOk result (λ y. next (valued (judge (expr_tree e.now) table.old)) (λ x t. saw (evaluated x) t) ≡ saw (checked_tree y) table.new) }
{
    let m = judge(alloc, table, e)?;
    let x = value_of(alloc, m)?;
    Ok(evaluated(x))
}

/// The first part of a `for`.
#[tactic(auto, using(l2_types::proofs::Steps::steps))]
fn first_part(alloc: Global, table: &mut Table, first: &First) -> Result<Checked, CheckError>
    ensures ok { IfOk result (λ y. first_part (first_tree first.now) table.old ≡ saw (checked_tree y) table.new) }
{
    match first {
        First::Absent => Ok(Checked::Empty),
        First::Expression(e) => expression(alloc, table, e),
        First::Declaration(d) => {
            let items = declaration(alloc, table, d)?;
            Ok(Checked::Declare(List::new(items)))
        }
    }
}

/// The statement of a branch, a loop or a switch.
#[cycle(statements)]
#[tactic(auto, using(l2_types::proofs::Steps::steps))]
fn body(alloc: Global, table: &mut Table, w: Setting, x: &Stmt) -> Result<Box<Checked>, CheckError>
    ensures ok { IfOk result (λ y. body w (stmt_tree x.now) table.old ≡ saw (checked_tree y.value) table.new) }
{
    let outer = table.enter()?;
    let inner = statement(alloc, table, w, x)?;
    table.leave(outer);
    Ok(Box::new(alloc, inner)?)
}

/// A branch of an `if`, whose scope stays begun.
#[cycle(statements)]
#[tactic(auto, using(l2_types::proofs::Steps::steps))]
fn branch(alloc: Global, table: &mut Table, w: Setting, b: &Branch) -> Result<Arm, CheckError>
    ensures ok { IfOk result (λ y. branch w (branch_tree b.now) table.old ≡ saw (arm_tree y) table.new) }
{
    let _ = table.enter()?;
    let condition = tested(alloc, table, &b.condition)?;
    let inner = body(alloc, table, apart(w), &b.body)?;
    Ok(Arm {
        condition,
        body: inner,
    })
}

/// The branches of an `if`, one after another.
#[cycle(statements)]
#[tactic(auto, using(l2_types::proofs::Steps::steps, crate::proofs::Rows::rows))]
fn branches(
    alloc: Global,
    table: &mut Table,
    w: Setting,
    first: &Branch,
    rest: &[Branch],
) -> Result<Vec<Arm>, CheckError>
    ensures ok { IfOk result (λ xs. branches w (branches_tree first.now rest.now) table.old ≡ saw (arms_onto no_arms xs.items) table.new) }
{
    let mut arms = Vec::new(alloc);
    let arm = branch(alloc, table, w, first)?;
    arms.push(arm)?;
    for b in rest {
        let arm = branch(alloc, table, w, b)?;
        arms.push(arm)?;
    }
    Ok(arms)
}

/// `if` without a last `else`.
#[cycle(statements)]
#[tactic(auto, using(l2_types::proofs::Steps::steps))]
fn if_alone(
    alloc: Global,
    table: &mut Table,
    w: Setting,
    first: &Branch,
    rest: &[Branch],
) -> Result<Checked, CheckError>
    ensures ok { IfOk result (λ y. statement w (If (branches_tree first.now rest.now)) table.old ≡ saw (checked_tree y) table.new) }
{
    let outer = table.scope();
    let arms = branches(alloc, table, w, first, rest)?;
    table.leave(outer);
    Ok(if_of(arms))
}

#[cycle(statements)]
#[tactic(auto, using(l2_types::proofs::Steps::steps))]
fn if_and_else(
    alloc: Global,
    table: &mut Table,
    w: Setting,
    first: &Branch,
    rest: &[Branch],
    other: &Stmt,
) -> Result<Checked, CheckError>
    ensures ok { IfOk result (λ y. statement w (IfElse (branches_tree first.now rest.now) (stmt_tree other.now)) table.old ≡ saw (checked_tree y) table.new) }
{
    let outer = table.scope();
    let arms = branches(alloc, table, w, first, rest)?;
    let last = body(alloc, table, apart(w), other)?;
    table.leave(outer);
    Ok(if_else(arms, last))
}

#[cycle(statements)]
#[tactic(auto, using(l2_types::proofs::Steps::steps))]
fn while_loop(
    alloc: Global,
    table: &mut Table,
    w: Setting,
    place: Place,
    bracket: Place,
    e: &Expr,
    x: &Stmt,
) -> Result<Checked, CheckError>
    ensures ok { IfOk result (λ y. statement w (While place bracket (expr_tree e.now) (stmt_tree x.now)) table.old ≡ saw (checked_tree y) table.new) }
{
    let number = table.new_loop(place)?;
    let uses = table.uses();
    let outer = table.enter()?;
    let condition = tested(alloc, table, e)?;
    let inner = body(alloc, table, looping(w), x)?;
    let named = table.named_from(alloc, uses)?;
    table.leave(outer);
    Ok(Checked::While(number, List::new(named), condition, inner))
}

#[cycle(statements)]
#[tactic(auto, using(l2_types::proofs::Steps::steps))]
fn do_loop(
    alloc: Global,
    table: &mut Table,
    w: Setting,
    place: Place,
    x: &Stmt,
    word: Place,
    bracket: Place,
    e: &Expr,
) -> Result<Checked, CheckError>
    ensures ok { IfOk result (λ y. statement w (Do place (stmt_tree x.now) word bracket (expr_tree e.now)) table.old ≡ saw (checked_tree y) table.new) }
{
    let number = table.new_loop(place)?;
    let uses = table.uses();
    let outer = table.enter()?;
    let inner = body(alloc, table, looping(w), x)?;
    let condition = tested(alloc, table, e)?;
    let named = table.named_from(alloc, uses)?;
    table.leave(outer);
    Ok(Checked::Do(number, List::new(named), inner, condition))
}

#[cycle(statements)]
#[tactic(auto, using(l2_types::proofs::Steps::steps))]
fn for_loop(
    alloc: Global,
    table: &mut Table,
    w: Setting,
    place: Place,
    bracket: Place,
    first: &First,
    c: &Option<Box<Expr>>,
    e: &Option<Box<Expr>>,
    x: &Stmt,
) -> Result<Checked, CheckError>
    ensures ok { IfOk result (λ y. statement w (For place bracket (first_tree first.now) (perhaps_tree c.now) (perhaps_tree e.now) (stmt_tree x.now)) table.old ≡ saw (checked_tree y) table.new) }
{
    let outer = table.enter()?;
    let start = first_part(alloc, table, first)?;
    let number = table.new_loop(place)?;
    let uses = table.uses();
    let condition = perhaps_tested(alloc, table, c)?;
    let step = perhaps_evaluated(alloc, table, e)?;
    let inner = body(alloc, table, looping(w), x)?;
    let named = table.named_from(alloc, uses)?;
    table.leave(outer);
    let start = Box::new(alloc, start)?;
    Ok(Checked::For(number, List::new(named), start, condition, step, inner))
}

#[cycle(statements)]
#[tactic(auto, using(l2_types::proofs::Steps::steps))]
fn switch(
    alloc: Global,
    table: &mut Table,
    w: Setting,
    place: Place,
    bracket: Place,
    e: &Expr,
    x: &Stmt,
) -> Result<Checked, CheckError>
    ensures ok { IfOk result (λ y. statement w (Switch place bracket (expr_tree e.now) (stmt_tree x.now)) table.old ≡ saw (checked_tree y) table.new) }
{
    let outer = table.enter()?;
    let m = judge(alloc, table, e)?;
    let operand = value_of(alloc, m)?;
    let cases = cases_of(table, first_place(e), &operand)?;
    let round = table.begin_switch(alloc);
    let inner = body(alloc, table, switching(cases, w), x)?;
    table.end_switch(round);
    table.leave(outer);
    let condition = switched(alloc, operand)?;
    Ok(Checked::Switch(condition, inner))
}

#[cycle(statements)]
#[tactic(auto, using(l2_types::proofs::Steps::steps))]
fn case(
    alloc: Global,
    table: &mut Table,
    w: Setting,
    place: Place,
    e: &Expr,
    x: &Stmt,
) -> Result<Checked, CheckError>
    ensures ok { IfOk result (λ y. statement w (Case place (expr_tree e.now) (stmt_tree x.now)) table.old ≡ saw (checked_tree y) table.new) }
{
    let value = constant(alloc, table, e)?;
    case_label(table, w.cases, place, value)?;
    let inner = statement(alloc, table, behind_label(w), x)?;
    Ok(Checked::Case(case_value(w.cases, value), Box::new(alloc, inner)?))
}

/// What a statement is with its types. Its faults, checks, calls and objects are put into the table.
#[cycle(statements)]
#[tactic(auto, using(l2_types::proofs::Steps::steps, crate::proofs::Rows::kinds, crate::proofs::Weights::sizes))]
fn statement(alloc: Global, table: &mut Table, w: Setting, s: &Stmt) -> Result<Checked, CheckError>
    ensures ok { IfOk result (λ y. statement w (stmt_tree s.now) table.old ≡ saw (checked_tree y) table.new) }
{
    match s {
        Stmt::Declaration(d) => {
            let items = declaration(alloc, table, d)?;
            declared(table, w.cases);
            Ok(Checked::Declare(List::new(items)))
        }
        Stmt::Block(_, all) => {
            let outer = table.enter()?;
            let inner = items(alloc, table, inside(w), all)?;
            table.leave(outer);
            Ok(block(inner))
        }
        Stmt::Expression(e) => expression(alloc, table, e),
        Stmt::Empty => Ok(Checked::Empty),
        Stmt::If(first, rest) => if_alone(alloc, table, w, first, rest),
        Stmt::IfElse(first, rest, other) => if_and_else(alloc, table, w, first, rest, other),
        Stmt::While(place, bracket, e, x) => while_loop(alloc, table, w, *place, *bracket, e, x),
        Stmt::Do(place, x, word, bracket, e) => {
            do_loop(alloc, table, w, *place, x, *word, *bracket, e)
        }
        Stmt::For(place, bracket, first, c, e, x) => {
            for_loop(alloc, table, w, *place, *bracket, first, c, e, x)
        }
        Stmt::Switch(place, bracket, e, x) => switch(alloc, table, w, *place, *bracket, e, x),
        Stmt::Case(place, e, x) => case(alloc, table, w, *place, e, x),
        Stmt::Default(place, x) => {
            default_label(table, w.cases, *place)?;
            let inner = statement(alloc, table, behind_label(w), x)?;
            Ok(Checked::Default(Box::new(alloc, inner)?))
        }
        Stmt::Label(name, place, x) => {
            table.with_label(*name, *place)?;
            let inner = statement(alloc, table, behind_label(w), x)?;
            Ok(Checked::Label(*name, Box::new(alloc, inner)?))
        }
        Stmt::Break(place) => {
            unless_may(table, w.breaks, *place)?;
            Ok(Checked::Break)
        }
        Stmt::Continue(place) => {
            unless_may(table, w.continues, *place)?;
            Ok(Checked::Continue)
        }
        Stmt::Return(place) => {
            nothing_returned(table, w.result, *place)?;
            Ok(Checked::Return)
        }
        Stmt::ReturnValue(place, e) => {
            let m = judge(alloc, table, e)?;
            let x = value_of(alloc, m)?;
            returned(alloc, table, w.result, *place, first_place(e), x)
        }
    }
}

/// Statements, one after another.
#[cycle(statements)]
#[tactic(auto, using(l2_types::proofs::Steps::steps, crate::proofs::Rows::rows))]
pub fn items(
    alloc: Global,
    table: &mut Table,
    w: Setting,
    all: &[Stmt],
) -> Result<Vec<Checked>, CheckError>
    ensures ok { IfOk result (λ xs. items w (stmts_onto no_stmts all.now) table.old ≡ saw (checked_onto no_statements xs.items) table.new) }
{
    let mut out = Vec::new(alloc);
    for s in all {
        let x = statement(alloc, table, w, s)?;
        out.push(x)?;
    }
    Ok(out)
}
