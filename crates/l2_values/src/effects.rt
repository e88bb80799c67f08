// Assignments, casts and sizes.
ghost use Rattle.std.specs.Prelude.{◌≡◌, pos, IfOk};
ghost use Rattle.l2_types.specs.Trees.{typed_tree, Constant};
ghost use Rattle.l2_types.specs.Types.{type_of_scalar};
ghost use Rattle.l2_types.specs.States.{saw};
ghost use Rattle.l2_types.specs.Meant.{meant_tree, operand_tree, converted, type_of};
ghost use Rattle.l2_values.specs.Values.{operated, assigned_integer, assigned, unless_const, assign, stepped_integer, stepped, cast, sized};

use crate::values::{checks_of, wrong};
use l2_bits::Ty;
use l2_syntax::{Place, Rule, Scalar};
use l2_types::{
    Arithmetic, Assigning, CType, CheckError, Gives, Lvalue, Meant, Operand, Table, Typed, common,
    converted, integer, promoted, size_of, type_of_scalar,
};
use std::alloc::Global;

/// `l op= y` in the type `c`, with a right operand that has been converted.
#[tactic(auto, using(l2_types::proofs::Steps::steps))]
fn operated(
    alloc: Global,
    table: &mut Table,
    gives: Gives,
    op: Arithmetic,
    c: Scalar,
    place: Place,
    a: Scalar,
    l: Lvalue,
    y: Box<Typed>,
) -> Result<Meant, CheckError>
    ensures ok { IfOk result (λ m. operated gives op c place a l (typed_tree y.value) table.old ≡ saw (meant_tree m) table.new) }
{
    let ty = type_of_scalar(c);
    let checks = checks_of(table, op, ty, place)?;
    integer(
        alloc,
        a,
        Typed::Update(gives, op, type_of_scalar(a), ty, checks, l, y),
    )
}

fn assigned_integer(
    alloc: Global,
    table: &mut Table,
    how: Assigning,
    place: Place,
    a: Scalar,
    l: Lvalue,
    b: Scalar,
    y: Box<Typed>,
) -> Result<Meant, CheckError>
    ensures ok { IfOk result (λ m. assigned_integer how place a l b (typed_tree y.value) table.old ≡ saw (meant_tree m) table.new) }
{
    match how {
        Assigning::Plainly => {
            let value = converted(alloc, b, a, y)?;
            integer(alloc, a, Typed::Assign(l, value))
        }
        Assigning::Computing(op) => {
            let c = common(a, b);
            let value = converted(alloc, b, c, y)?;
            operated(alloc, table, Gives::After, op, c, place, a, l, value)
        }
        Assigning::Shifting(op) => {
            let value = converted(alloc, b, promoted(b), y)?;
            operated(
                alloc,
                table,
                Gives::After,
                op,
                promoted(a),
                place,
                a,
                l,
                value,
            )
        }
    }
}

/// An assignment to what has type `t`.
fn assigned(
    alloc: Global,
    table: &mut Table,
    how: Assigning,
    place: Place,
    t: CType,
    l: Lvalue,
    right: Operand,
) -> Result<Meant, CheckError>
    ensures ok { IfOk result (λ m. assigned how place t l (operand_tree right) table.old ≡ saw (meant_tree m) table.new) }
{
    match right {
        Operand::Unknown => Ok(Meant::Unknown),
        Operand::Of(u, y) => match t {
            CType::Integer(a) => match u {
                CType::Integer(b) => assigned_integer(alloc, table, how, place, a, l, b, y),
                CType::Void => wrong(table, place),
            },
            CType::Void => wrong(table, place),
        },
    }
}

/// `lvalue` at the place of what changes a const lvalue.
fn unless_const(table: &mut Table, is_const: bool, place: Place) -> Result<(), CheckError>
    ensures ok { IfOk result (λ u. table.new ≡ unless_const is_const place table.old) }
{
    if is_const {
        table.fault(place, Rule::Lvalue)?;
    }
    Ok(())
}

/// An assignment.
pub fn assign(
    alloc: Global,
    table: &mut Table,
    how: Assigning,
    place: Place,
    left: Meant,
    right: Operand,
) -> Result<Meant, CheckError>
    ensures ok { IfOk result (λ m. assign how place (meant_tree left) (operand_tree right) table.old ≡ saw (meant_tree m) table.new) }
{
    match left {
        Meant::Unknown => Ok(Meant::Unknown),
        Meant::Value(t, _) => {
            table.fault(place, Rule::Lvalue)?;
            assigned(alloc, table, how, place, t, Lvalue::Object(0), right)
        }
        Meant::Located(t, is_const, l) => {
            unless_const(table, is_const, place)?;
            assigned(alloc, table, how, place, t, l, right)
        }
    }
}

/// 1, as a number of a type.
fn one(alloc: Global, c: Scalar) -> Result<Box<Typed>, CheckError>
    ensures ok { IfOk result (λ r. typed_tree r.value ≡ Constant (type_of_scalar c) (pos 1)) }
{
    Ok(Box::new(alloc, Typed::Constant(type_of_scalar(c), 1))?)
}

fn stepped_integer(
    alloc: Global,
    table: &mut Table,
    gives: Gives,
    op: Arithmetic,
    place: Place,
    a: Scalar,
    l: Lvalue,
) -> Result<Meant, CheckError>
    ensures ok { IfOk result (λ m. stepped_integer gives op place a l table.old ≡ saw (meant_tree m) table.new) }
{
    let c = promoted(a);
    let value = one(alloc, c)?;
    operated(alloc, table, gives, op, c, place, a, l, value)
}

/// `++` or `--`.
pub fn stepped(
    alloc: Global,
    table: &mut Table,
    gives: Gives,
    op: Arithmetic,
    place: Place,
    operand: Meant,
) -> Result<Meant, CheckError>
    ensures ok { IfOk result (λ m. stepped gives op place (meant_tree operand) table.old ≡ saw (meant_tree m) table.new) }
{
    match operand {
        Meant::Unknown => Ok(Meant::Unknown),
        Meant::Value(t, _) => match t {
            CType::Void => wrong(table, place),
            CType::Integer(a) => {
                table.fault(place, Rule::Lvalue)?;
                stepped_integer(alloc, table, gives, op, place, a, Lvalue::Object(0))
            }
        },
        Meant::Located(t, is_const, l) => match t {
            CType::Void => wrong(table, place),
            CType::Integer(a) => {
                unless_const(table, is_const, place)?;
                stepped_integer(alloc, table, gives, op, place, a, l)
            }
        },
    }
}

/// A cast.
pub fn cast(
    alloc: Global,
    table: &mut Table,
    place: Place,
    t: Option<CType>,
    operand: Operand,
) -> Result<Meant, CheckError>
    ensures ok { IfOk result (λ m. cast place t (operand_tree operand) table.old ≡ saw (meant_tree m) table.new) }
{
    match t {
        None => Ok(Meant::Unknown),
        Some(t) => match operand {
            Operand::Unknown => Ok(Meant::Unknown),
            Operand::Of(u, x) => match t {
                CType::Void => Ok(Meant::Value(CType::Void, Box::new(alloc, Typed::Discard(x))?)),
                CType::Integer(a) => match u {
                    CType::Integer(b) => Ok(Meant::Value(
                        CType::Integer(a),
                        converted(alloc, b, a, x)?,
                    )),
                    CType::Void => wrong(table, place),
                },
            },
        },
    }
}

/// `sizeof` of a type.
pub fn sized(
    alloc: Global,
    table: &mut Table,
    place: Place,
    t: Option<CType>,
) -> Result<Meant, CheckError>
    ensures ok { IfOk result (λ m. sized place t table.old ≡ saw (meant_tree m) table.new) }
{
    match t {
        None => Ok(Meant::Unknown),
        Some(CType::Void) => wrong(table, place),
        Some(CType::Integer(a)) => integer(
            alloc,
            Scalar::ULong,
            Typed::Constant(Ty::ULONG, size_of(a)),
        ),
    }
}

pub fn type_of(m: &Meant) -> Option<CType>
    ensures { result ≡ type_of (meant_tree m.now) }
{
    match m {
        Meant::Unknown => None,
        Meant::Value(t, _) => Some(*t),
        Meant::Located(t, _, _) => Some(*t),
    }
}
