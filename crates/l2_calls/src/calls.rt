// Calls, when their arguments are known.
ghost use Rattle.std.specs.Prelude.{◌≡◌, IfOk};
ghost use Rattle.l2_tree.specs.Units.{expr_tree};
ghost use Rattle.l2_types.specs.Trees.{Call, typed_tree, typed_onto, no_trees};
ghost use Rattle.l2_types.specs.declared.types.CType.{CType};
ghost use Rattle.l2_types.specs.States.{saw};
ghost use Rattle.l2_types.specs.Meant.{Value, meant_tree, operand_tree};
ghost use Rattle.l2_calls.specs.Calls.{callee, is_literal, unfit, fitted, unless_right, last_of, builtin, called_function, called, fails};

use l2_runs::Kind;
use l2_syntax::{Place, Rule, Scalar};
use l2_tree::Expr;
use l2_types::{
    Builtin, CType, Callable, Callee, CheckError, Meaning, Meant, Operand, Table, Typed, Want,
    converted, integer, type_of_scalar,
};
use std::alloc::Global;

/// What is called: a name, perhaps in parentheses.
pub fn callee(f: &Expr) -> Callee
    ensures { result ≡ callee (expr_tree f.now) }
{
    match f {
        Expr::Name(name, place) => Callee::Named(*name, *place),
        Expr::Parenthesised(_, e) => callee(e),
        _ => Callee::Other,
    }
}

/// Whether an expression is a string literal, perhaps in parentheses.
pub fn is_literal(e: &Expr) -> bool
    ensures { result ≡ is_literal (expr_tree e.now) }
{
    match e {
        Expr::Text(_) => true,
        Expr::Parenthesised(_, e) => is_literal(e),
        _ => false,
    }
}

/// An argument's value as it is passed. Where it doesn't fit, `type` at its first token.
pub fn fitted(
    alloc: Global,
    table: &mut Table,
    want: Want,
    place: Place,
    given: Operand,
) -> Result<Typed, CheckError>
    ensures ok { IfOk result (λ t. fitted want place (operand_tree given) table.old ≡ saw (typed_tree t) table.new) }
{
    match given {
        Operand::Unknown => Ok(Typed::Abort),
        Operand::Of(t, x) => match want {
            Want::Anything | Want::Literal => Ok(Box::into_inner(x)),
            Want::Testing => match t {
                CType::Integer(_) => Ok(Box::into_inner(x)),
                CType::Void => unfit(table, place),
            },
            Want::Fitting(u) => match t {
                CType::Integer(b) => match u {
                    CType::Integer(a) => Ok(Box::into_inner(converted(alloc, b, a, x)?)),
                    CType::Void => unfit(table, place),
                },
                CType::Void => unfit(table, place),
            },
        },
    }
}

/// `type` at the first token of what doesn't fit.
fn unfit(table: &mut Table, place: Place) -> Result<Typed, CheckError>
    ensures ok { IfOk result (λ t. unfit place table.old ≡ saw (typed_tree t) table.new) }
{
    table.fault(place, Rule::BadType)?;
    Ok(Typed::Abort)
}

/// Whether a call's arguments aren't evaluated.
pub fn fails(meaning: Option<Meaning>) -> bool
    ensures { result ≡ fails meaning }
{
    match meaning {
        Some(Meaning::Builtin(Builtin::ReachError)) => true,
        Some(Meaning::Builtin(Builtin::Fail)) => true,
        Some(Meaning::Builtin(Builtin::AssertFail)) => true,
        _ => false,
    }
}

/// `call` at the name.
fn unless_right(table: &mut Table, is_right: bool, place: Place) -> Result<(), CheckError>
    ensures ok { IfOk result (λ u. table.new ≡ unless_right is_right place table.old) }
{
    if !is_right {
        table.fault(place, Rule::Call)?;
    }
    Ok(())
}

/// The last of the arguments.
#[tactic(auto, using(crate::proofs::Lasts::calls))]
fn last_of(alloc: Global, given: Vec<Typed>) -> Result<Box<Typed>, CheckError>
    ensures ok { IfOk result (λ x. typed_tree x.value ≡ last_of (typed_onto no_trees given.items)) }
{
    let mut given = given;
    match given.pop() {
        Some(x) => Ok(Box::new(alloc, x)?),
        None => Ok(Box::new(alloc, Typed::Abort)?),
    }
}

/// A call that gives no value.
fn no_value(alloc: Global, e: Typed) -> Result<Meant, CheckError>
    ensures ok { IfOk result (λ m. meant_tree m ≡ Value CType.Void (typed_tree e)) }
{
    Ok(Meant::Value(CType::Void, Box::new(alloc, e)?))
}

/// A call of a built-in name.
#[tactic(auto, using(l2_types::proofs::Steps::steps))]
fn builtin(
    alloc: Global,
    table: &mut Table,
    b: Builtin,
    place: Place,
    count: usize,
    given: Vec<Typed>,
) -> Result<Meant, CheckError>
    ensures ok { IfOk result (λ m. builtin b place count (typed_onto no_trees given.items) table.old ≡ saw (meant_tree m) table.new) }
{
    match b {
        Builtin::Assert => {
            let x = last_of(alloc, given)?;
            let check = table.checked(Some(Kind::Assertion), place)?;
            unless_right(table, count == 1, place)?;
            no_value(alloc, Typed::Assert(check, x))
        }
        Builtin::Assume => {
            let x = last_of(alloc, given)?;
            unless_right(table, count == 1, place)?;
            no_value(alloc, Typed::Assume(x))
        }
        Builtin::Exit => {
            let x = last_of(alloc, given)?;
            unless_right(table, count == 1, place)?;
            no_value(alloc, Typed::Exit(x))
        }
        Builtin::Abort => {
            unless_right(table, count == 0, place)?;
            no_value(alloc, Typed::Abort)
        }
        Builtin::ReachError | Builtin::Fail => {
            let check = table.checked(Some(Kind::Assertion), place)?;
            unless_right(table, count == 0, place)?;
            no_value(alloc, Typed::Fail(check))
        }
        Builtin::AssertFail => {
            let check = table.checked(Some(Kind::Assertion), place)?;
            unless_right(table, count == 4, place)?;
            no_value(alloc, Typed::Fail(check))
        }
        Builtin::Choice(k) => {
            unless_right(table, count == 0, place)?;
            integer(alloc, k, Typed::Choice(type_of_scalar(k)))
        }
    }
}

/// A call of a function of the text.
fn called_function(
    alloc: Global,
    table: &mut Table,
    g: Option<Callable>,
    place: Place,
    given: Vec<Typed>,
) -> Result<Meant, CheckError>
    ensures ok { IfOk result (λ m. called_function g place (typed_onto no_trees given.items) table.old ≡ saw (meant_tree m) table.new) }
{
    match g {
        None => {
            table.fault(place, Rule::Call)?;
            Ok(Meant::Unknown)
        }
        Some(g) => {
            unless_right(table, g.fits, place)?;
            table.call(g.number, place)?;
            function_call(alloc, g, given)
        }
    }
}

fn function_call(alloc: Global, g: Callable, given: Vec<Typed>) -> Result<Meant, CheckError>
    ensures ok { IfOk result (λ m. meant_tree m ≡ Value g.result (Call g.number (typed_onto no_trees given.items))) }
{
    let call = call_of(g.number, given);
    Ok(Meant::Value(g.result, Box::new(alloc, call)?))
}

#[tactic(auto, using(crate::proofs::Lasts::calls))]
fn call_of(number: u32, given: Vec<Typed>) -> Typed
    ensures { typed_tree result ≡ Call number (typed_onto no_trees given.items) }
{
    Typed::Call(number, given)
}

/// A call of a name.
pub fn called(
    alloc: Global,
    table: &mut Table,
    meaning: Option<Meaning>,
    place: Place,
    count: usize,
    given: Vec<Typed>,
) -> Result<Meant, CheckError>
    ensures ok { IfOk result (λ m. called meaning place count (typed_onto no_trees given.items) table.old ≡ saw (meant_tree m) table.new) }
{
    match meaning {
        None => {
            table.fault(place, Rule::UnknownName)?;
            Ok(Meant::Unknown)
        }
        Some(Meaning::Function(f)) => {
            let g = table.callable(f, count);
            called_function(alloc, table, g, place, given)
        }
        Some(Meaning::Builtin(b)) => builtin(alloc, table, b, place, count, given),
        Some(_) => {
            table.fault(place, Rule::Call)?;
            Ok(Meant::Unknown)
        }
    }
}
