// Types by their names.
ghost use Rattle.std.specs.Prelude.{◌≡◌, IfOk};
ghost use Rattle.l2_tree.specs.Units.{specifier_tree, specifiers_tree};
ghost use Rattle.l2_tree_laws.specs.Specifiers.{base_of};
ghost use Rattle.l2_types.specs.States.{saw};
ghost use Rattle.l2_types.specs.Meant.{meant_tree, operand_tree};
ghost use Rattle.l2_types_expr.specs.TypeNames.{type_named, tag_type, based, plain_type, function_of, size_of_name, cast_to};

use l2_syntax::{Place, Rule, Scalar};
use l2_tree::{Specifier, Specifiers};
use l2_tree_names::{BaseType, base_of};
use l2_types::{CType, CheckError, Meaning, Meant, Operand, Table};
use l2_values::{cast, sized, wrong};
use std::alloc::Global;

/// The type that specifiers name.
#[derive(Clone, Copy)]
pub enum BaseName {
    /// It is at fault.
    Unknown,
    /// A type of functions, by its place among the signatures.
    FunctionType(u32),
    /// A type, and whether the name makes it const.
    Known(CType, bool),
}

/// What the name of a type is to an operator.
#[derive(Clone, Copy)]
pub enum NamedType {
    /// It is at fault.
    Unknown,
    /// A type of functions.
    Function,
    Known(CType),
}

/// A name that stands where one of a type does.
fn type_named(
    table: &mut Table,
    place: Place,
    meaning: Option<Meaning>,
) -> Result<BaseName, CheckError>
    ensures ok { IfOk result (λ t. type_named place meaning table.old ≡ saw t table.new) }
{
    match meaning {
        Some(Meaning::TypeName(t, is_const)) => Ok(BaseName::Known(t, is_const)),
        Some(Meaning::FunctionType(g)) => Ok(BaseName::FunctionType(g)),
        Some(Meaning::Unknown) => Ok(BaseName::Unknown),
        _ => {
            table.fault(place, Rule::BadType)?;
            Ok(BaseName::Unknown)
        }
    }
}

fn tag_type(x: &Specifier) -> BaseName
    ensures { result ≡ tag_type (specifier_tree x.now) }
{
    match x {
        Specifier::Enum(..) | Specifier::EnumBody(..) => {
            BaseName::Known(CType::Integer(Scalar::Int), false)
        }
        Specifier::Word(..)
        | Specifier::TypeName(..)
        | Specifier::Struct(..)
        | Specifier::StructBody(..) => BaseName::Unknown,
    }
}

/// The type that specifiers name, whose enumerators are known.
#[tactic(auto, using(crate::proofs::Names::bases))]
pub fn based(table: &mut Table, all: &Specifiers) -> Result<BaseName, CheckError>
    ensures ok { IfOk result (λ t. based (base_of (specifiers_tree all.now)) table.old ≡ saw t table.new) }
{
    match base_of(all) {
        BaseType::Void => Ok(BaseName::Known(CType::Void, false)),
        BaseType::Number(a) => Ok(BaseName::Known(CType::Integer(a), false)),
        BaseType::Named(name, place) => {
            let meaning = table.lookup(name);
            type_named(table, place, meaning)
        }
        BaseType::Tagged(x) => Ok(tag_type(x)),
    }
}

pub fn plain_type(t: BaseName) -> NamedType
    ensures { result ≡ plain_type t }
{
    match t {
        BaseName::Unknown => NamedType::Unknown,
        BaseName::FunctionType(_) => NamedType::Function,
        BaseName::Known(t, _) => NamedType::Known(t),
    }
}

pub fn function_of(t: BaseName) -> NamedType
    ensures { result ≡ function_of t }
{
    match t {
        BaseName::Unknown => NamedType::Unknown,
        BaseName::FunctionType(_) | BaseName::Known(_, _) => NamedType::Function,
    }
}

/// `sizeof` of the name of a type.
pub fn size_of_name(
    alloc: Global,
    table: &mut Table,
    place: Place,
    t: NamedType,
) -> Result<Meant, CheckError>
    ensures ok { IfOk result (λ m. size_of_name place t table.old ≡ saw (meant_tree m) table.new) }
{
    match t {
        NamedType::Unknown => Ok(Meant::Unknown),
        NamedType::Function => wrong(table, place),
        NamedType::Known(t) => sized(alloc, table, place, Some(t)),
    }
}

/// A cast to the name of a type.
pub fn cast_to(
    alloc: Global,
    table: &mut Table,
    place: Place,
    t: NamedType,
    operand: Operand,
) -> Result<Meant, CheckError>
    ensures ok { IfOk result (λ m. cast_to place t (operand_tree operand) table.old ≡ saw (meant_tree m) table.new) }
{
    match t {
        NamedType::Unknown => Ok(Meant::Unknown),
        NamedType::Function => match operand {
            Operand::Unknown => Ok(Meant::Unknown),
            Operand::Of(..) => wrong(table, place),
        },
        NamedType::Known(t) => cast(alloc, table, place, Some(t), operand),
    }
}
