// Initialisers.
ghost use Rattle.std.specs.Prelude.{◌≡◌, option_map, IfOk};
ghost use Rattle.l2_tree.specs.Units.{expr_tree, initialiser_tree, initialisers_tree};
ghost use Rattle.l2_types.specs.States.{saw};
ghost use Rattle.l2_types.specs.Meant.{operand_tree};
ghost use Rattle.l2_types_declarations.specs.Initialisers.{item_tree, first_item, item_of, looked, all_looked, misplaced, unless_expression, items_surplus, surplus, started, declared_or_started, static_number, static_value, static_started, static_or_started, begins, without};

use crate::types::{Item, Target};
use l2_bits::convert;
use l2_calls::fitted;
use l2_constants::{Folded, fold};
use l2_program::StaticValue;
use l2_runs::CellValue;
use l2_syntax::{Place, Rule, Scalar};
use l2_tree::{Expr, Initialiser, Initialisers};
use l2_tree_names::{first_place, initialiser_place};
use l2_types::{CType, CheckError, Operand, Table, Want, type_of_scalar};
use l2_types_expr::judge;
use l2_values::value_of;
use std::alloc::Global;

/// The expression that is the first of the items in braces, if it is one.
#[tactic(auto, using(crate::proofs::Items::items))]
fn first_item<'a>(all: &'a Initialisers) -> Option<&'a Expr>
    ensures { option_map (λ e. expr_tree e.now) result ≡ first_item (initialisers_tree all.now) }
{
    let first: &'a Initialiser = &all.first;
    match first {
        Initialiser::Expression(e) => Some(e),
        Initialiser::Braced(..) => None,
    }
}

/// The expression that a scalar's initialiser is, perhaps in braces.
#[tactic(auto, using(crate::proofs::Items::braced))]
fn item_of<'a>(i: &'a Initialiser) -> Option<&'a Expr>
    ensures { option_map (λ e. expr_tree e.now) result ≡ item_of (initialiser_tree i.now) }
{
    match i {
        Initialiser::Expression(e) => Some(e),
        Initialiser::Braced(_, all, _) => first_item(all),
    }
}

/// The faults of all expressions of an initialiser.
#[cycle(initialisers)]
#[tactic(auto, using(l2_types::proofs::Steps::states, crate::proofs::Items::braced))]
fn looked(alloc: Global, table: &mut Table, i: &Initialiser) -> Result<(), CheckError>
    ensures ok { IfOk result (λ u. table.new ≡ looked (initialiser_tree i.now) table.old) }
{
    match i {
        Initialiser::Expression(e) => {
            let _ = judge(alloc, table, e)?;
            Ok(())
        }
        Initialiser::Braced(_, all, _) => all_looked(alloc, table, all),
    }
}

#[cycle(initialisers)]
#[tactic(auto, using(crate::proofs::Items::items))]
fn all_looked(alloc: Global, table: &mut Table, all: &Initialisers) -> Result<(), CheckError>
    ensures ok { IfOk result (λ u. table.new ≡ all_looked (initialisers_tree all.now) table.old) }
{
    looked(alloc, table, &all.first)?;
    for i in all.rest.as_slice() {
        looked(alloc, table, i)?;
    }
    Ok(())
}

/// An item that has no place.
fn misplaced(alloc: Global, table: &mut Table, i: &Initialiser) -> Result<(), CheckError>
    ensures ok { IfOk result (λ u. table.new ≡ misplaced (initialiser_tree i.now) table.old) }
{
    table.fault(initialiser_place(i), Rule::Initialiser)?;
    looked(alloc, table, i)
}

#[tactic(auto, using(l2_tree::proofs::Declarations::declarations))]
fn unless_expression(alloc: Global, table: &mut Table, i: &Initialiser) -> Result<(), CheckError>
    ensures ok { IfOk result (λ u. table.new ≡ unless_expression (initialiser_tree i.now) table.old) }
{
    match i {
        Initialiser::Expression(_) => Ok(()),
        Initialiser::Braced(..) => misplaced(alloc, table, i),
    }
}

/// The items in braces that have no place.
#[tactic(auto, using(crate::proofs::Items::items))]
fn items_surplus(alloc: Global, table: &mut Table, all: &Initialisers) -> Result<(), CheckError>
    ensures ok { IfOk result (λ u. table.new ≡ items_surplus (initialisers_tree all.now) table.old) }
{
    unless_expression(alloc, table, &all.first)?;
    for i in all.rest.as_slice() {
        misplaced(alloc, table, i)?;
    }
    Ok(())
}

#[tactic(auto, using(crate::proofs::Items::braced))]
fn surplus(alloc: Global, table: &mut Table, i: &Initialiser) -> Result<(), CheckError>
    ensures ok { IfOk result (λ u. table.new ≡ surplus (initialiser_tree i.now) table.old) }
{
    match i {
        Initialiser::Expression(_) => Ok(()),
        Initialiser::Braced(_, all, _) => items_surplus(alloc, table, all),
    }
}

/// A variable with the value of an expression.
#[tactic(auto, using(l2_types::proofs::Steps::steps))]
fn started(
    alloc: Global,
    table: &mut Table,
    object: u32,
    a: Scalar,
    e: &Expr,
) -> Result<Item, CheckError>
    ensures ok { IfOk result (λ x. started object a (expr_tree e.now) table.old ≡ saw (item_tree x) table.new) }
{
    let m = judge(alloc, table, e)?;
    let x = value_of(alloc, m)?;
    let want = Want::Fitting(CType::Integer(a));
    let value = fitted(alloc, table, want, first_place(e), x)?;
    Ok(Item::Initialise(object, Box::new(alloc, value)?))
}

fn declared_or_started(
    alloc: Global,
    table: &mut Table,
    object: u32,
    a: Scalar,
    e: Option<&Expr>,
) -> Result<Item, CheckError>
    ensures ok { IfOk result (λ x. declared_or_started object a (option_map (λ r. expr_tree r.now) e.entry) table.old ≡ saw (item_tree x) table.new) }
{
    match e {
        None => Ok(Item::Declare(object)),
        Some(e) => started(alloc, table, object, a, e),
    }
}

fn static_number(
    table: &mut Table,
    object: u32,
    a: Scalar,
    place: Place,
    x: Folded,
) -> Result<(), CheckError>
    ensures ok { IfOk result (λ u. table.new ≡ static_number object a place x table.old) }
{
    match x {
        Folded::Varies => table.fault(place, Rule::Initialiser),
        Folded::Breaks => table.fault(place, Rule::Constant),
        Folded::Number(v) => table.with_static(StaticValue {
            object,
            offset: 0,
            value: CellValue::Number(convert(type_of_scalar(a), v)),
        }),
    }
}

fn static_value(
    table: &mut Table,
    object: u32,
    a: Scalar,
    place: Place,
    x: Operand,
) -> Result<(), CheckError>
    ensures ok { IfOk result (λ u. table.new ≡ static_value object a place (operand_tree x) table.old) }
{
    match x {
        Operand::Unknown => Ok(()),
        Operand::Of(t, e) => match t {
            CType::Void => table.fault(place, Rule::BadType),
            CType::Integer(_) => {
                let value = fold(table.overflow(), &e);
                static_number(table, object, a, place, value)
            }
        },
    }
}

/// A static variable with the value of a constant expression.
#[tactic(auto, using(l2_types::proofs::Steps::steps, l2_types::proofs::Steps::states))]
fn static_started(
    alloc: Global,
    table: &mut Table,
    object: u32,
    a: Scalar,
    e: &Expr,
) -> Result<(), CheckError>
    ensures ok { IfOk result (λ u. table.new ≡ static_started object a (expr_tree e.now) table.old) }
{
    let mark = table.mark();
    let m = judge(alloc, table, e)?;
    let x = value_of(alloc, m)?;
    table.forget(mark);
    static_value(table, object, a, first_place(e), x)
}

fn static_or_started(
    alloc: Global,
    table: &mut Table,
    object: u32,
    a: Scalar,
    e: Option<&Expr>,
) -> Result<(), CheckError>
    ensures ok { IfOk result (λ u. table.new ≡ static_or_started object a (option_map (λ r. expr_tree r.now) e.entry) table.old) }
{
    match e {
        None => Ok(()),
        Some(e) => static_started(alloc, table, object, a, e),
    }
}

/// What a declaration with an initialiser does.
#[tactic(auto, using(l2_types::proofs::Steps::steps))]
pub fn begins(
    alloc: Global,
    table: &mut Table,
    target: Target,
    i: &Initialiser,
) -> Result<Option<Item>, CheckError>
    ensures ok { IfOk result (λ o. begins target (initialiser_tree i.now) table.old ≡ saw (option_map item_tree o) table.new) }
{
    match target {
        Target::Nothing => {
            looked(alloc, table, i)?;
            Ok(None)
        }
        Target::Function => {
            table.fault(initialiser_place(i), Rule::BadType)?;
            looked(alloc, table, i)?;
            Ok(None)
        }
        Target::Automatic(object, a) => {
            let item = declared_or_started(alloc, table, object, a, item_of(i))?;
            surplus(alloc, table, i)?;
            Ok(Some(item))
        }
        Target::Permanent(object, a) => {
            static_or_started(alloc, table, object, a, item_of(i))?;
            surplus(alloc, table, i)?;
            Ok(Some(Item::Static(object)))
        }
    }
}

/// What a declaration without one does.
pub fn without(target: Target) -> Option<Item>
    ensures { option_map item_tree result ≡ without target }
{
    match target {
        Target::Nothing | Target::Function => None,
        Target::Automatic(object, _) => Some(Item::Declare(object)),
        Target::Permanent(object, _) => Some(Item::Static(object)),
    }
}
