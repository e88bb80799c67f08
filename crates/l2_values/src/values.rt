// Operators on values.
ghost use Rattle.std.specs.Prelude.{◌≡◌, IfOk};
ghost use Rattle.l2_types.specs.Trees.{typed_tree};
ghost use Rattle.l2_types.specs.States.{saw};
ghost use Rattle.l2_types.specs.Meant.{meant_tree, operand_tree, wrong, value_of, overflow_kind, checks_of};
ghost use Rattle.l2_values.specs.Values.{named, computed, integers, combined, binary, negated, unary_integer, unary, chosen, conditional, comma};

use l2_bits::Ty;
use l2_runs::Kind;
use l2_syntax::{Place, Rule, Scalar};
use l2_tree::UnaryOperator;
use l2_types::{
    Arithmetic, CType, CheckError, Checks, Class, Lvalue, Meaning, Meant, Negation, Operand, Table,
    Typed, can_overflow, common, converted, defined_kind, integer, promoted, type_of_scalar,
};
use std::alloc::Global;

/// `type` at the place.
pub fn wrong(table: &mut Table, place: Place) -> Result<Meant, CheckError>
    ensures ok { IfOk result (λ m. wrong place table.old ≡ saw (meant_tree m) table.new) }
{
    table.fault(place, Rule::BadType)?;
    Ok(Meant::Unknown)
}

/// What a name stands for as an expression.
pub fn named(
    alloc: Global,
    table: &mut Table,
    place: Place,
    meaning: Option<Meaning>,
) -> Result<Meant, CheckError>
    ensures ok { IfOk result (λ m. named place meaning table.old ≡ saw (meant_tree m) table.new) }
{
    match meaning {
        None => {
            table.fault(place, Rule::UnknownName)?;
            Ok(Meant::Unknown)
        }
        Some(Meaning::Object(object, t, is_const)) => {
            table.name(object)?;
            Ok(Meant::Located(t, is_const, Lvalue::Object(object)))
        }
        Some(Meaning::Enumerator(value)) => integer(
            alloc,
            Scalar::Int,
            Typed::Constant(Ty::INT, value),
        ),
        Some(Meaning::Function(_)) => wrong(table, place),
        Some(Meaning::TypeName(_, _)) => wrong(table, place),
        Some(Meaning::FunctionType(_)) => wrong(table, place),
        Some(Meaning::Builtin(_)) => wrong(table, place),
        Some(Meaning::Unknown) => Ok(Meant::Unknown),
    }
}

/// The value of what an expression stands for.
pub fn value_of(alloc: Global, m: Meant) -> Result<Operand, CheckError>
    ensures ok { IfOk result (λ x. operand_tree x ≡ value_of (meant_tree m)) }
{
    match m {
        Meant::Unknown => Ok(Operand::Unknown),
        Meant::Value(t, e) => Ok(Operand::Of(t, e)),
        Meant::Located(t, _, l) => Ok(Operand::Of(t, Box::new(alloc, Typed::Read(t, l))?)),
    }
}

fn overflow_kind(may: bool, ty: Ty) -> Option<Kind>
    ensures { result ≡ overflow_kind may ty }
{
    if may && ty.signed {
        Some(Kind::Overflow)
    } else {
        None
    }
}

/// The numbers of an operator's checks.
#[tactic(auto, using(l2_types::proofs::Steps::steps))]
pub fn checks_of(
    table: &mut Table,
    op: Arithmetic,
    ty: Ty,
    place: Place,
) -> Result<Checks, CheckError>
    ensures ok { IfOk result (λ c. checks_of op ty place table.old ≡ saw c table.new) }
{
    let may = table.overflow() && can_overflow(op);
    let defined = table.checked(defined_kind(op), place)?;
    let overflow = table.checked(overflow_kind(may, ty), place)?;
    Ok(Checks { defined, overflow })
}

/// An operator on operands that have been converted.
#[tactic(auto, using(l2_types::proofs::Steps::steps))]
fn computed(
    alloc: Global,
    table: &mut Table,
    op: Arithmetic,
    c: Scalar,
    place: Place,
    x: Box<Typed>,
    y: Box<Typed>,
) -> Result<Meant, CheckError>
    ensures ok { IfOk result (λ m. computed op c place (typed_tree x.value) (typed_tree y.value) table.old ≡ saw (meant_tree m) table.new) }
{
    let ty = type_of_scalar(c);
    let checks = checks_of(table, op, ty, place)?;
    integer(alloc, c, Typed::Arithmetic(op, ty, checks, x, y))
}

/// An operator on two integers.
#[tactic(auto, using(l2_types::proofs::Steps::steps))]
fn integers(
    alloc: Global,
    table: &mut Table,
    class: Class,
    place: Place,
    a: Scalar,
    x: Box<Typed>,
    b: Scalar,
    y: Box<Typed>,
) -> Result<Meant, CheckError>
    ensures ok { IfOk result (λ m. integers class place a (typed_tree x.value) b (typed_tree y.value) table.old ≡ saw (meant_tree m) table.new) }
{
    match class {
        Class::Computes(op) => {
            let c = common(a, b);
            let left = converted(alloc, a, c, x)?;
            let right = converted(alloc, b, c, y)?;
            computed(alloc, table, op, c, place, left, right)
        }
        Class::Shifts(op) => {
            let c = promoted(a);
            let left = converted(alloc, a, c, x)?;
            let right = converted(alloc, b, promoted(b), y)?;
            computed(alloc, table, op, c, place, left, right)
        }
        Class::Compares(op) => {
            let c = common(a, b);
            let left = converted(alloc, a, c, x)?;
            let right = converted(alloc, b, c, y)?;
            integer(
                alloc,
                Scalar::Int,
                Typed::Compare(op, type_of_scalar(c), left, right),
            )
        }
        Class::Joins(op) => integer(alloc, Scalar::Int, Typed::Join(op, x, y)),
    }
}

/// An operator on two operands of known types.
fn combined(
    alloc: Global,
    table: &mut Table,
    class: Class,
    place: Place,
    t: CType,
    x: Box<Typed>,
    u: CType,
    y: Box<Typed>,
) -> Result<Meant, CheckError>
    ensures ok { IfOk result (λ m. combined class place t (typed_tree x.value) u (typed_tree y.value) table.old ≡ saw (meant_tree m) table.new) }
{
    match t {
        CType::Integer(a) => match u {
            CType::Integer(b) => integers(alloc, table, class, place, a, x, b, y),
            CType::Void => wrong(table, place),
        },
        CType::Void => wrong(table, place),
    }
}

/// A binary operator.
pub fn binary(
    alloc: Global,
    table: &mut Table,
    class: Class,
    place: Place,
    left: Operand,
    right: Operand,
) -> Result<Meant, CheckError>
    ensures ok { IfOk result (λ m. binary class place (operand_tree left) (operand_tree right) table.old ≡ saw (meant_tree m) table.new) }
{
    match left {
        Operand::Unknown => Ok(Meant::Unknown),
        Operand::Of(t, x) => match right {
            Operand::Unknown => Ok(Meant::Unknown),
            Operand::Of(u, y) => combined(alloc, table, class, place, t, x, u, y),
        },
    }
}

/// `-` on an operand that has been converted.
#[tactic(auto, using(l2_types::proofs::Steps::steps))]
fn negated(
    alloc: Global,
    table: &mut Table,
    place: Place,
    c: Scalar,
    x: Box<Typed>,
) -> Result<Meant, CheckError>
    ensures ok { IfOk result (λ m. negated place c (typed_tree x.value) table.old ≡ saw (meant_tree m) table.new) }
{
    let ty = type_of_scalar(c);
    let kind = overflow_kind(table.overflow(), ty);
    let overflow = table.checked(kind, place)?;
    integer(alloc, c, Typed::Unary(Negation::Negate, ty, overflow, x))
}

/// A unary operator on an integer.
fn unary_integer(
    alloc: Global,
    table: &mut Table,
    op: UnaryOperator,
    place: Place,
    a: Scalar,
    x: Box<Typed>,
) -> Result<Meant, CheckError>
    ensures ok { IfOk result (λ m. unary_integer op place a (typed_tree x.value) table.old ≡ saw (meant_tree m) table.new) }
{
    let c = promoted(a);
    match op {
        UnaryOperator::Address => wrong(table, place),
        UnaryOperator::Dereference => wrong(table, place),
        UnaryOperator::Plus => Ok(Meant::Value(CType::Integer(c), converted(alloc, a, c, x)?)),
        UnaryOperator::Negate => {
            let operand = converted(alloc, a, c, x)?;
            negated(alloc, table, place, c, operand)
        }
        UnaryOperator::Complement => {
            let operand = converted(alloc, a, c, x)?;
            integer(
                alloc,
                c,
                Typed::Unary(Negation::Complement, type_of_scalar(c), 0, operand),
            )
        }
        UnaryOperator::Not => integer(
            alloc,
            Scalar::Int,
            Typed::Unary(Negation::Not, type_of_scalar(a), 0, x),
        ),
    }
}

pub fn unary(
    alloc: Global,
    table: &mut Table,
    op: UnaryOperator,
    place: Place,
    operand: Operand,
) -> Result<Meant, CheckError>
    ensures ok { IfOk result (λ m. unary op place (operand_tree operand) table.old ≡ saw (meant_tree m) table.new) }
{
    match operand {
        Operand::Unknown => Ok(Meant::Unknown),
        Operand::Of(t, x) => match t {
            CType::Void => wrong(table, place),
            CType::Integer(a) => unary_integer(alloc, table, op, place, a, x),
        },
    }
}

/// `c ? x : y` with a condition that is an integer.
fn chosen(
    alloc: Global,
    table: &mut Table,
    place: Place,
    c: Box<Typed>,
    t: CType,
    x: Box<Typed>,
    u: CType,
    y: Box<Typed>,
) -> Result<Meant, CheckError>
    ensures ok { IfOk result (λ m. chosen place (typed_tree c.value) t (typed_tree x.value) u (typed_tree y.value) table.old ≡ saw (meant_tree m) table.new) }
{
    match t {
        CType::Integer(a) => match u {
            CType::Integer(b) => {
                let s = common(a, b);
                let left = converted(alloc, a, s, x)?;
                let right = converted(alloc, b, s, y)?;
                integer(alloc, s, Typed::Conditional(c, left, right))
            }
            CType::Void => wrong(table, place),
        },
        CType::Void => match u {
            CType::Integer(_) => wrong(table, place),
            CType::Void => Ok(Meant::Value(
                CType::Void,
                Box::new(alloc, Typed::Conditional(c, x, y))?,
            )),
        },
    }
}

pub fn conditional(
    alloc: Global,
    table: &mut Table,
    place: Place,
    condition: Operand,
    left: Operand,
    right: Operand,
) -> Result<Meant, CheckError>
    ensures ok { IfOk result (λ m. conditional place (operand_tree condition) (operand_tree left) (operand_tree right) table.old ≡ saw (meant_tree m) table.new) }
{
    match condition {
        Operand::Unknown => Ok(Meant::Unknown),
        Operand::Of(t, c) => match left {
            Operand::Unknown => Ok(Meant::Unknown),
            Operand::Of(u, x) => match right {
                Operand::Unknown => Ok(Meant::Unknown),
                Operand::Of(v, y) => match t {
                    CType::Void => wrong(table, place),
                    CType::Integer(_) => chosen(alloc, table, place, c, u, x, v, y),
                },
            },
        },
    }
}

pub fn comma(
    alloc: Global,
    table: &mut Table,
    left: Operand,
    right: Operand,
) -> Result<Meant, CheckError>
    ensures ok { IfOk result (λ m. comma (operand_tree left) (operand_tree right) table.old ≡ saw (meant_tree m) table.new) }
{
    match left {
        Operand::Unknown => Ok(Meant::Unknown),
        Operand::Of(_, x) => match right {
            Operand::Unknown => Ok(Meant::Unknown),
            Operand::Of(u, y) => Ok(Meant::Value(u, Box::new(alloc, Typed::Comma(x, y))?)),
        },
    }
}
