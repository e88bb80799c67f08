// Parameters, and the types of declarators.
ghost use Rattle.std.specs.Prelude.{◌≡◌, slice_get, IfOk};
ghost use Rattle.l2_tree.specs.Trees.{no_parameters};
ghost use Rattle.l2_tree.specs.Units.{parameter_tree, parameters_onto, declarator_tree};
ghost use Rattle.l2_types.specs.States.{saw};
ghost use Rattle.l2_tree_names.specs.Declarators.{parameters_of};
ghost use Rattle.l2_types_declarations.specs.Forms.{is_lone, lone_form};
ghost use Rattle.l2_types_declarations.specs.Parameters.{made, at_fault, unnamed, with_parameter, declare_parameter, unknown_parameter, declarator_at_fault, named, parameter, parameters, all_parameters, also, prototype_parameters, type_fault, function_type, typed};

use crate::forms::{has_const, is_bare, is_lone, type_start};
use crate::names::with_unknown;
use crate::types::DeclaredType;
use l2_bits::List;
use l2_syntax::{Place, Rule};
use l2_tree::{Declarator, Parameter};
use l2_tree_names::{DeclaredName, name_of, parameters_of};
use l2_types::{CType, CheckError, Meaning, Table};
use l2_types_expr::{BaseName, specified};
use std::alloc::Global;

/// A parameter whose type is at fault.
fn at_fault(table: &mut Table, place: Place) -> Result<Option<CType>, CheckError>
    ensures ok { IfOk result (λ t. at_fault place table.old ≡ saw t table.new) }
{
    table.fault(place, Rule::BadType)?;
    Ok(Some(CType::Void))
}

/// A parameter without a declarator.
fn unnamed(
    table: &mut Table,
    is_alone: bool,
    base: BaseName,
    place: Place,
) -> Result<Option<CType>, CheckError>
    ensures ok { IfOk result (λ t. unnamed is_alone base place table.old ≡ saw t table.new) }
{
    match base {
        BaseName::Unknown => Ok(Some(CType::Void)),
        BaseName::FunctionType(_) => at_fault(table, place),
        BaseName::Known(t, _) => match t {
            CType::Void => if is_alone {
                Ok(None)
            } else {
                at_fault(table, place)
            },
            CType::Integer(a) => Ok(Some(CType::Integer(a))),
        },
    }
}

#[tactic(auto, using(l2_types::proofs::Steps::steps, l2_types::proofs::Steps::states))]
fn with_parameter(
    table: &mut Table,
    is_object: bool,
    nm: DeclaredName,
    t: CType,
    is_const: bool,
) -> Result<(), CheckError>
    ensures ok { IfOk result (λ u. table.new ≡ with_parameter is_object nm t is_const table.old) }
{
    if !is_object {
        return table.with_entry(nm.name, Meaning::Object(0, t, is_const));
    }
    let object = table.new_object(nm.name, nm.place, t, false)?;
    table.with_entry(nm.name, Meaning::Object(object, t, is_const))
}

/// A parameter's name.
fn declare_parameter(
    table: &mut Table,
    is_object: bool,
    nm: Option<DeclaredName>,
    t: CType,
    is_const: bool,
) -> Result<(), CheckError>
    ensures ok { IfOk result (λ u. table.new ≡ declare_parameter is_object nm t is_const table.old) }
{
    match nm {
        None => Ok(()),
        Some(nm) => {
            if table.is_taken(nm.name) {
                table.fault(nm.place, Rule::Redeclared)
            } else {
                with_parameter(table, is_object, nm, t, is_const)
            }
        }
    }
}

fn unknown_parameter(table: &mut Table, nm: Option<DeclaredName>) -> Result<(), CheckError>
    ensures ok { IfOk result (λ u. table.new ≡ unknown_parameter nm table.old) }
{
    match nm {
        None => Ok(()),
        Some(nm) => with_unknown(table, nm),
    }
}

fn declarator_at_fault(
    table: &mut Table,
    nm: Option<DeclaredName>,
    place: Place,
) -> Result<Option<CType>, CheckError>
    ensures ok { IfOk result (λ t. declarator_at_fault nm place table.old ≡ saw t table.new) }
{
    table.fault(place, Rule::BadType)?;
    unknown_parameter(table, nm)?;
    Ok(Some(CType::Void))
}

/// A parameter with a declarator, which is nothing but a name where it is bare.
fn named(
    table: &mut Table,
    is_object: bool,
    nm: Option<DeclaredName>,
    base: BaseName,
    is_const: bool,
    is_bare: bool,
    place: Place,
) -> Result<Option<CType>, CheckError>
    ensures ok { IfOk result (λ t. named is_object nm base is_const is_bare place table.old ≡ saw t table.new) }
{
    match base {
        BaseName::Unknown => {
            unknown_parameter(table, nm)?;
            Ok(Some(CType::Void))
        }
        BaseName::FunctionType(_) => declarator_at_fault(table, nm, place),
        BaseName::Known(t, also_const) => match t {
            CType::Void => declarator_at_fault(table, nm, place),
            CType::Integer(a) => if is_bare {
                let t = CType::Integer(a);
                declare_parameter(table, is_object, nm, t, is_const || also_const)?;
                Ok(Some(t))
            } else {
                declarator_at_fault(table, nm, place)
            },
        },
    }
}

/// The type of a parameter; none for the word `void` alone.
#[tactic(auto, using(l2_types::proofs::Steps::steps, crate::proofs::Rows::one_parameter))]
fn parameter(
    alloc: Global,
    table: &mut Table,
    is_object: bool,
    is_alone: bool,
    x: &Parameter,
) -> Result<Option<CType>, CheckError>
    ensures ok { IfOk result (λ t. parameter is_object is_alone (parameter_tree x.now) table.old ≡ saw t table.new) }
{
    match x {
        Parameter::Plain(all) => {
            let base = specified(alloc, table, all)?;
            unnamed(table, is_alone, base, type_start(all))
        }
        Parameter::Declared(all, d) => {
            let base = specified(alloc, table, all)?;
            named(
                table,
                is_object,
                name_of(d),
                base,
                has_const(all),
                is_bare(d),
                type_start(all),
            )
        }
    }
}

fn also(types: &mut Vec<CType>, t: Option<CType>) -> Result<(), CheckError>
    ensures ok { IfOk result (λ u. types.new.items ≡ also types.old.items t) }
{
    match t {
        None => Ok(()),
        Some(t) => {
            types.push(t)?;
            Ok(())
        }
    }
}

/// The types of parameters, which are objects in a function's definition.
#[tactic(auto, using(l2_types::proofs::Steps::steps, crate::proofs::Rows::parameter_rows))]
pub fn all_parameters(
    alloc: Global,
    table: &mut Table,
    is_object: bool,
    all: &[Parameter],
) -> Result<List<CType>, CheckError>
    ensures ok { IfOk result (λ ts. all_parameters is_object (parameters_onto no_parameters all.now) table.old ≡ saw ts table.new) }
{
    let is_alone = all.len() == 1;
    let mut types = Vec::new(alloc);
    for x in all {
        let t = parameter(alloc, table, is_object, is_alone, x)?;
        also(&mut types, t)?;
    }
    Ok(List::new(types))
}

/// The types of a prototype's parameters.
#[tactic(auto, using(l2_types::proofs::Steps::steps))]
fn prototype_parameters(
    alloc: Global,
    table: &mut Table,
    all: &[Parameter],
) -> Result<List<CType>, CheckError>
    ensures ok { IfOk result (λ ts. prototype_parameters (parameters_onto no_parameters all.now) table.old ≡ saw ts table.new) }
{
    let outer = table.enter()?;
    let types = all_parameters(alloc, table, false, all)?;
    table.leave(outer);
    Ok(types)
}

fn type_fault(table: &mut Table, place: Place) -> Result<DeclaredType, CheckError>
    ensures ok { IfOk result (λ t. type_fault place table.old ≡ saw t table.new) }
{
    table.fault(place, Rule::BadType)?;
    Ok(DeclaredType::Unknown)
}

/// The type of functions that a name stands for.
fn function_type(alloc: Global, table: &Table, place: u32) -> Result<DeclaredType, CheckError>
    ensures ok { IfOk result (λ t. t ≡ function_type (slice_get table.now.functions place)) }
{
    match table.functions().get(place as usize) {
        None => Ok(DeclaredType::Unknown),
        Some(g) => {
            let parameters = List::new(g.parameters.as_slice().to_vec(alloc)?);
            Ok(DeclaredType::Function(g.result, g.is_const, parameters))
        }
    }
}

/// The type of a declarator behind a type that begins at a place.
#[tactic(auto, using(l2_types::proofs::Steps::steps))]
pub fn typed(
    alloc: Global,
    table: &mut Table,
    base: BaseName,
    is_const: bool,
    place: Place,
    d: &Declarator,
) -> Result<DeclaredType, CheckError>
    ensures ok { IfOk result (λ t. typed base is_const place (declarator_tree d.now) table.old ≡ saw t table.new) }
{
    match base {
        BaseName::Unknown => Ok(DeclaredType::Unknown),
        BaseName::FunctionType(g) => {
            if is_bare(d) {
                return function_type(alloc, table, g);
            }
            type_fault(table, place)
        }
        BaseName::Known(t, also_const) => {
            if is_bare(d) {
                return Ok(DeclaredType::Object(t, is_const || also_const));
            }
            function_made(alloc, table, t, is_const || also_const, place, d)
        }
    }
}

/// The type of a declarator that isn't bare.
#[tactic(auto, using(l2_types::proofs::Steps::steps))]
fn function_made(
    alloc: Global,
    table: &mut Table,
    t: CType,
    is_const: bool,
    place: Place,
    d: &Declarator,
) -> Result<DeclaredType, CheckError>
    ensures ok { IfOk result (λ r. made t is_const place (lone_form (is_lone (declarator_tree d.now)) (parameters_of (declarator_tree d.now))) table.old ≡ saw r table.new) }
{
    if !is_lone(d) {
        return type_fault(table, place);
    }
    match parameters_of(d) {
        None => type_fault(table, place),
        Some(all) => {
            let types = prototype_parameters(alloc, table, all)?;
            Ok(DeclaredType::Function(t, is_const, types))
        }
    }
}
