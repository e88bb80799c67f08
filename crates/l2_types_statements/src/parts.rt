// Labels, jumps and the expressions of statements.
ghost use Rattle.std.specs.Prelude.{◌≡◌, option_map, Option, IfOk};
ghost use Rattle.l2_tree.specs.Units.{expr_tree, perhaps_tree};
ghost use Rattle.l2_types.specs.Trees.{typed_tree};
ghost use Rattle.l2_types.specs.States.{saw};
ghost use Rattle.l2_types.specs.Meant.{operand_tree};
ghost use Rattle.l2_types_statements.specs.Trees.{checked_tree, perhaps_typed};
ghost use Rattle.l2_types_statements.specs.Parts.{case_label, case_value, default_label, declared, unless_may, evaluated, tested, perhaps_tested, perhaps_value, perhaps_evaluated, switched, cases_of, returned, nothing_returned};

use crate::checked::{Cases, Checked};
use l2_bits::convert;
use l2_calls::fitted;
use l2_syntax::{Place, Rule};
use l2_tree::Expr;
use l2_tree_names::first_place;
use l2_types::{
    CType, CheckError, Operand, Table, Typed, Want, converted, promoted, type_of_scalar,
};
use l2_types_expr::judge;
use l2_values::value_of;
use std::alloc::Global;

/// `case` at its place, with its value.
pub fn case_label(
    table: &mut Table,
    cases: Cases,
    place: Place,
    value: Option<i128>,
) -> Result<(), CheckError>
    ensures ok { IfOk result (λ u. table.new ≡ case_label cases place value table.old) }
{
    match cases {
        Cases::Absent => table.fault(place, Rule::Label),
        Cases::Unknown => table.jump(place),
        Cases::Of(a) => match value {
            None => table.jump(place),
            Some(v) => {
                table.jump(place)?;
                table.with_value(place, convert(type_of_scalar(a), v))
            }
        },
    }
}

/// A value in the type of a switch.
pub fn case_value(cases: Cases, value: Option<i128>) -> i128
    ensures { result ≡ case_value cases value }
{
    match cases {
        Cases::Of(a) => match value {
            Some(v) => convert(type_of_scalar(a), v),
            None => 0,
        },
        Cases::Absent | Cases::Unknown => 0,
    }
}

/// `default` at its place.
pub fn default_label(table: &mut Table, cases: Cases, place: Place) -> Result<(), CheckError>
    ensures ok { IfOk result (λ u. table.new ≡ default_label cases place table.old) }
{
    match cases {
        Cases::Absent => table.fault(place, Rule::Label),
        Cases::Unknown => {
            table.jump(place)?;
            table.the_default(place)
        }
        Cases::Of(_) => {
            table.jump(place)?;
            table.the_default(place)
        }
    }
}

/// A declaration that may stand directly in a switch's block.
pub fn declared(table: &mut Table, cases: Cases)
    ensures { table.new ≡ declared cases table.old }
{
    match cases {
        Cases::Absent => {}
        _ => table.declared_here(),
    }
}

/// `label`, where a jump may not stand.
pub fn unless_may(table: &mut Table, may: bool, place: Place) -> Result<(), CheckError>
    ensures ok { IfOk result (λ u. table.new ≡ unless_may may place table.old) }
{
    if may {
        return Ok(());
    }
    table.fault(place, Rule::Label)
}

/// An expression statement.
pub fn evaluated(x: Operand) -> Checked
    ensures { checked_tree result ≡ evaluated (operand_tree x) }
{
    match x {
        Operand::Unknown => Checked::Empty,
        Operand::Of(_, e) => Checked::Evaluate(e),
    }
}

/// An expression that is tested.
#[tactic(auto, using(l2_types::proofs::Steps::steps))]
pub fn tested(alloc: Global, table: &mut Table, e: &Expr) -> Result<Box<Typed>, CheckError>
    ensures ok { IfOk result (λ x. tested (expr_tree e.now) table.old ≡ saw (typed_tree x.value) table.new) }
{
    let m = judge(alloc, table, e)?;
    let x = value_of(alloc, m)?;
    let value = fitted(alloc, table, Want::Testing, first_place(e), x)?;
    Ok(Box::new(alloc, value)?)
}

#[tactic(auto, using(l2_types::proofs::Steps::steps))]
pub fn perhaps_tested(
    alloc: Global,
    table: &mut Table,
    e: &Option<Box<Expr>>,
) -> Result<Option<Box<Typed>>, CheckError>
    ensures ok { IfOk result (λ o. perhaps_tested (perhaps_tree e.now) table.old ≡ saw (perhaps_typed o) table.new) }
{
    match e {
        None => Ok(None),
        Some(e) => {
            let x = tested(alloc, table, e)?;
            Ok(Some(x))
        }
    }
}

fn perhaps_value(x: Operand) -> Option<Box<Typed>>
    ensures { perhaps_typed result ≡ perhaps_value (operand_tree x) }
{
    match x {
        Operand::Unknown => None,
        Operand::Of(_, e) => Some(e),
    }
}

#[tactic(auto, using(l2_types::proofs::Steps::steps))]
pub fn perhaps_evaluated(
    alloc: Global,
    table: &mut Table,
    e: &Option<Box<Expr>>,
) -> Result<Option<Box<Typed>>, CheckError>
    ensures ok { IfOk result (λ o. perhaps_evaluated (perhaps_tree e.now) table.old ≡ saw (perhaps_typed o) table.new) }
{
    match e {
        None => Ok(None),
        Some(e) => {
            let m = judge(alloc, table, e)?;
            let x = value_of(alloc, m)?;
            Ok(perhaps_value(x))
        }
    }
}

/// The value of a switch's expression.
pub fn switched(alloc: Global, x: Operand) -> Result<Box<Typed>, CheckError>
    ensures ok { IfOk result (λ y. typed_tree y.value ≡ switched (operand_tree x)) }
{
    match x {
        Operand::Unknown => Ok(Box::new(alloc, Typed::Abort)?),
        Operand::Of(t, e) => match t {
            CType::Void => Ok(e),
            CType::Integer(a) => converted(alloc, a, promoted(a), e),
        },
    }
}

/// The cases of a switch, by its expression.
pub fn cases_of(table: &mut Table, place: Place, x: &Operand) -> Result<Cases, CheckError>
    ensures ok { IfOk result (λ c. cases_of place (operand_tree x.now) table.old ≡ saw c table.new) }
{
    match x {
        Operand::Unknown => Ok(Cases::Unknown),
        Operand::Of(t, _) => match t {
            CType::Void => {
                table.fault(place, Rule::BadType)?;
                Ok(Cases::Unknown)
            }
            CType::Integer(a) => Ok(Cases::Of(promoted(*a))),
        },
    }
}

/// `return` with a value.
#[tactic(auto, using(l2_types::proofs::Steps::steps))]
pub fn returned(
    alloc: Global,
    table: &mut Table,
    t: CType,
    place: Place,
    first: Place,
    x: Operand,
) -> Result<Checked, CheckError>
    ensures ok { IfOk result (λ y. returned t place first (operand_tree x) table.old ≡ saw (checked_tree y) table.new) }
{
    match t {
        CType::Void => {
            table.fault(place, Rule::BadType)?;
            Ok(Checked::Return)
        }
        CType::Integer(a) => {
            let want = Want::Fitting(CType::Integer(a));
            let value = fitted(alloc, table, want, first, x)?;
            Ok(Checked::ReturnValue(Box::new(alloc, value)?))
        }
    }
}

/// `return` without a value.
pub fn nothing_returned(table: &mut Table, t: CType, place: Place) -> Result<(), CheckError>
    ensures ok { IfOk result (λ u. table.new ≡ nothing_returned t place table.old) }
{
    match t {
        CType::Void => Ok(()),
        CType::Integer(_) => table.fault(place, Rule::BadType),
    }
}
