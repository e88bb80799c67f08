// Expressions.
ghost use Rattle.std.specs.Prelude.{◌≡◌, if◌then◌else◌, length, take, None, IfOk};
ghost use Rattle.l2_tree.specs.Trees.{no_exprs};
ghost use Rattle.l2_tree.specs.Units.{expr_tree, exprs_onto, parameter_tree, specifier_tree, specifiers_tree, enumerator_tree, enumerators_tree};
ghost use Rattle.l2_types.specs.Trees.{typed_tree, typed_onto, no_trees};
ghost use Rattle.l2_types.specs.States.{saw, next, lookup};
ghost use Rattle.l2_types.specs.declared.state.Callee.{Callee};
ghost use Rattle.l2_types.specs.Meant.{meant_tree, wrong};
ghost use Rattle.l2_tree_laws.specs.Places.{first_place};
ghost use Rattle.l2_types_expr.specs.Expressions.{called_by, call, judge, arguments, argument, is_skipped, type_name, specified, enumerated, enum_body, enumerators, enumerator};
ghost use Rattle.l2_types_expr.specs.Enumerators.{constant};

use crate::enumerators::{constant_of, in_int, with_enum_tag, with_enumerator};
use crate::type_names::{
    BaseName, NamedType, based, cast_to, function_of, plain_type, size_of_name,
};
use l2_calls::{called, callee, fails, fitted, is_literal};
use l2_syntax::Place;
use l2_tree::{Enumerator, Enumerators, Expr, Parameter, Specifier, Specifiers};
use l2_tree_names::first_place;
use l2_types::{
    Callee, CheckError, Gives, Meaning, Meant, Table, Typed, Want, assignment_of, class_of,
    integer, step_of, type_of_scalar,
};
use l2_values::{
    assign, binary, comma, conditional, named, sized, stepped, type_of, unary, value_of, wrong,
};
use std::alloc::Global;

/// Whether an argument is a string literal where it may be one.
fn is_skipped(want: Want, e: &Expr) -> bool
    ensures { result ≡ is_skipped want (expr_tree e.now) }
{
    match want {
        Want::Literal => is_literal(e),
        _ => false,
    }
}

/// An argument's value as it is passed.
#[cycle(judging)]
#[tactic(auto, using(l2_types::proofs::Steps::steps))]
fn argument(alloc: Global, table: &mut Table, want: Want, e: &Expr) -> Result<Typed, CheckError>
    ensures ok { IfOk result (λ x. argument (is_skipped want (expr_tree e.now)) want (first_place (expr_tree e.now)) (judge (expr_tree e.now) table.old) table.old ≡ saw (typed_tree x) table.new) }
{
    if is_skipped(want, e) {
        return Ok(Typed::Abort);
    }
    let m = judge(alloc, table, e)?;
    let given = value_of(alloc, m)?;
    fitted(alloc, table, want, first_place(e), given)
}

/// The arguments of a call, as they are passed.
#[cycle(judging)]
#[tactic(auto, using(l2_types::proofs::Steps::steps, crate::proofs::Arguments::given, l2_types::proofs::Rows::calls))]
fn arguments(
    alloc: Global,
    table: &mut Table,
    meaning: Option<Meaning>,
    all: &[Expr],
) -> Result<Vec<Typed>, CheckError>
    ensures ok { IfOk result (λ xs. arguments meaning (length all.now) (exprs_onto no_exprs all.now) table.old ≡ saw (typed_onto no_trees xs.items) table.new) }
{
    let mut out = Vec::new(alloc);
    let mut i = 0;
    for e in all {
        let want = table.wanted(meaning, all.len(), i);
        let x = argument(alloc, table, want, e)?;
        out.push(x)?;
        i += 1;
    }
    Ok(out)
}

/// A call of a name.
#[cycle(judging)]
#[tactic(auto, using(l2_types::proofs::Steps::steps, crate::proofs::Arguments::given))]
fn call_of_name(
    alloc: Global,
    table: &mut Table,
    name: u32,
    place: Place,
    all: &[Expr],
) -> Result<Meant, CheckError>
    ensures ok { IfOk result (λ m. next (arguments (lookup table.old name) (length all.now) (exprs_onto no_exprs all.now) table.old) (λ xs u. called_by (Callee.Named name place) place (length all.now) xs table.old u) ≡ saw (meant_tree m) table.new) }
{
    let meaning = table.lookup(name);
    let mark = table.mark();
    let given = arguments(alloc, table, meaning, all)?;
    forget_if(table, fails(meaning), mark);
    called(alloc, table, meaning, place, all.len(), given)
}

/// A call of what is no name.
#[cycle(judging)]
#[tactic(auto, using(l2_types::proofs::Steps::steps, crate::proofs::Arguments::given))]
fn call_of_other(
    alloc: Global,
    table: &mut Table,
    f: &Expr,
    place: Place,
    all: &[Expr],
) -> Result<Meant, CheckError>
    ensures ok { IfOk result (λ m. next (judge (expr_tree f.now) table.old) (λ l t. next (arguments None (length all.now) (exprs_onto no_exprs all.now) t) (λ xs u. wrong place u)) ≡ saw (meant_tree m) table.new) }
{
    let _ = judge(alloc, table, f)?;
    let _ = arguments(alloc, table, None, all)?;
    wrong(table, place)
}

/// A call.
#[cycle(judging)]
#[tactic(auto, using(l2_types::proofs::Steps::steps))]
fn call(
    alloc: Global,
    table: &mut Table,
    f: &Expr,
    place: Place,
    all: &[Expr],
) -> Result<Meant, CheckError>
    ensures ok { IfOk result (λ m. call (expr_tree f.now) place (judge (expr_tree f.now) table.old) (λ c t. arguments c (length all.now) (exprs_onto no_exprs all.now) t) (length all.now) table.old ≡ saw (meant_tree m) table.new) }
{
    match callee(f) {
        Callee::Named(name, q) => call_of_name(alloc, table, name, q, all),
        Callee::Other => call_of_other(alloc, table, f, place, all),
    }
}

/// What an expression stands for. Its faults, checks and calls are put into the table.
#[cycle(judging)]
#[tactic(auto, using(l2_types::proofs::Steps::steps, crate::proofs::Arguments::calls))]
pub fn judge(alloc: Global, table: &mut Table, e: &Expr) -> Result<Meant, CheckError>
    ensures ok { IfOk result (λ m. judge (expr_tree e.now) table.old ≡ saw (meant_tree m) table.new) }
{
    match e {
        Expr::Name(name, place) => {
            let meaning = table.lookup(*name);
            named(alloc, table, *place, meaning)
        }
        Expr::Number(value, k, _) => integer(
            alloc,
            *k,
            Typed::Constant(type_of_scalar(*k), *value),
        ),
        Expr::Text(place) => wrong(table, *place),
        Expr::Parenthesised(_, e) => judge(alloc, table, e),
        Expr::Index(..) => Ok(Meant::Unknown),
        Expr::Call(f, place, all) => call(alloc, table, f, *place, all),
        Expr::Member(..) => Ok(Meant::Unknown),
        Expr::PostUpdate(e, op, place) => {
            let operand = judge(alloc, table, e)?;
            stepped(alloc, table, Gives::Before, step_of(*op), *place, operand)
        }
        Expr::Update(op, place, e) => {
            let operand = judge(alloc, table, e)?;
            stepped(alloc, table, Gives::After, step_of(*op), *place, operand)
        }
        Expr::Unary(op, place, e) => {
            let m = judge(alloc, table, e)?;
            let operand = value_of(alloc, m)?;
            unary(alloc, table, *op, *place, operand)
        }
        Expr::Sizeof(place, e) => {
            let mark = table.mark();
            let m = judge(alloc, table, e)?;
            table.forget(mark);
            sized(alloc, table, *place, type_of(&m))
        }
        Expr::SizeofType(place, _, t) => {
            let t = type_name(alloc, table, t)?;
            size_of_name(alloc, table, *place, t)
        }
        Expr::Cast(place, t, e) => {
            let t = type_name(alloc, table, t)?;
            let m = judge(alloc, table, e)?;
            let operand = value_of(alloc, m)?;
            cast_to(alloc, table, *place, t, operand)
        }
        Expr::Binary(a, op, place, b) => {
            let m = judge(alloc, table, a)?;
            let left = value_of(alloc, m)?;
            let n = judge(alloc, table, b)?;
            let right = value_of(alloc, n)?;
            binary(alloc, table, class_of(*op), *place, left, right)
        }
        Expr::Conditional(c, place, a, b) => {
            let l = judge(alloc, table, c)?;
            let condition = value_of(alloc, l)?;
            let m = judge(alloc, table, a)?;
            let left = value_of(alloc, m)?;
            let n = judge(alloc, table, b)?;
            let right = value_of(alloc, n)?;
            conditional(alloc, table, *place, condition, left, right)
        }
        Expr::Assign(a, op, place, b) => {
            let left = judge(alloc, table, a)?;
            let n = judge(alloc, table, b)?;
            let right = value_of(alloc, n)?;
            assign(alloc, table, assignment_of(*op), *place, left, right)
        }
        Expr::Comma(a, b) => {
            let m = judge(alloc, table, a)?;
            let left = value_of(alloc, m)?;
            let n = judge(alloc, table, b)?;
            let right = value_of(alloc, n)?;
            comma(alloc, table, left, right)
        }
    }
}

/// The number of an expression that must be constant; else `constant` at its first token.
#[cycle(judging)]
#[tactic(auto, using(l2_types::proofs::Steps::steps))]
pub fn constant(alloc: Global, table: &mut Table, e: &Expr) -> Result<Option<i128>, CheckError>
    ensures ok { IfOk result (λ v. constant (first_place (expr_tree e.now)) (judge (expr_tree e.now) table.old) table.old ≡ saw v table.new) }
{
    let mark = table.mark();
    let m = judge(alloc, table, e)?;
    let x = value_of(alloc, m)?;
    table.forget(mark);
    constant_of(table, first_place(e), x)
}

/// An enumerator, with the value that it has without one of its own. The answer is that of the next one.
#[cycle(judging)]
#[tactic(auto, using(l2_types::proofs::Steps::steps))]
fn enumerator(
    alloc: Global,
    table: &mut Table,
    e: &Enumerator,
    value: Option<i128>,
) -> Result<Option<i128>, CheckError>
    ensures ok { IfOk result (λ v. enumerator (enumerator_tree e.now) value table.old ≡ saw v table.new) }
{
    match e {
        Enumerator::Plain(name, place) => with_enumerator(table, *name, *place, value),
        Enumerator::Valued(name, place, _, e) => {
            let own = constant(alloc, table, e)?;
            with_enumerator(table, *name, *place, in_int(own))
        }
    }
}

/// Enumerators, one after another.
#[cycle(judging)]
#[tactic(auto, using(l2_types::proofs::Steps::steps, crate::proofs::Bodies::bodies))]
fn enumerators(
    alloc: Global,
    table: &mut Table,
    all: &Enumerators,
) -> Result<Option<i128>, CheckError>
    ensures ok { IfOk result (λ v. enumerators (enumerators_tree all.now) table.old ≡ saw v table.new) }
{
    let mut value = enumerator(alloc, table, &all.first, Some(0))?;
    for e in all.rest.as_slice() {
        value = enumerator(alloc, table, e, value)?;
    }
    Ok(value)
}

/// The enumerators of an enum with a body.
#[cycle(judging)]
#[tactic(auto, using(l2_types::proofs::Steps::states, crate::proofs::Bodies::bodies, crate::proofs::Weights::parts))]
fn enum_body(alloc: Global, table: &mut Table, x: &Specifier) -> Result<(), CheckError>
    ensures ok { IfOk result (λ u. table.new ≡ enum_body (specifier_tree x.now) table.old) }
{
    match x {
        Specifier::EnumBody(_, tag, _, all, _) => {
            with_enum_tag(table, *tag)?;
            let _ = enumerators(alloc, table, all)?;
            Ok(())
        }
        Specifier::Word(..)
        | Specifier::TypeName(..)
        | Specifier::Struct(..)
        | Specifier::StructBody(..)
        | Specifier::Enum(..) => Ok(()),
    }
}

/// The enumerators among specifiers.
#[cycle(judging)]
#[tactic(auto, using(crate::proofs::Bodies::bodies))]
fn enumerated(alloc: Global, table: &mut Table, all: &Specifiers) -> Result<(), CheckError>
    ensures ok { IfOk result (λ u. table.new ≡ enumerated (specifiers_tree all.now) table.old) }
{
    enum_body(alloc, table, &all.first)?;
    for x in all.rest.as_slice() {
        enum_body(alloc, table, x)?;
    }
    Ok(())
}

/// The type that specifiers name. Enumerators in it become known.
#[cycle(judging)]
pub fn specified(alloc: Global, table: &mut Table, all: &Specifiers) -> Result<BaseName, CheckError>
    ensures ok { IfOk result (λ b. specified (specifiers_tree all.now) table.old ≡ saw b table.new) }
{
    enumerated(alloc, table, all)?;
    based(table, all)
}

/// The name of a type.
#[cycle(judging)]
#[tactic(auto, using(l2_types::proofs::Steps::steps, crate::proofs::Names::names, crate::proofs::Weights::parts))]
fn type_name(alloc: Global, table: &mut Table, t: &Parameter) -> Result<NamedType, CheckError>
    ensures ok { IfOk result (λ r. type_name (parameter_tree t.now) table.old ≡ saw r table.new) }
{
    match t {
        Parameter::Plain(all) => {
            let base = specified(alloc, table, all)?;
            Ok(plain_type(base))
        }
        Parameter::Declared(all, _) => {
            let base = specified(alloc, table, all)?;
            Ok(function_of(base))
        }
    }
}

/// Takes away the checks and calls of arguments that aren't evaluated.
fn forget_if(table: &mut Table, is_forgotten: bool, mark: (usize, usize))
    ensures { table.new ≡ (if is_forgotten then record table.old { checks = take mark.0 table.old.checks; calls = take mark.1 table.old.calls } else table.old) }
{
    if is_forgotten {
        table.forget(mark);
    }
}
