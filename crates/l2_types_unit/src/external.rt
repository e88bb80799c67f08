// The parts of a text.
ghost use Rattle.std.specs.Prelude.{◌≡◌, ◌+◌, map, option_map, length, [], IfOk};
ghost use Rattle.l2_tree.specs.Trees.{no_stmts, no_parameters};
ghost use Rattle.l2_tree.specs.Units.{external_tree, declarator_tree, stmts_onto, parameters_onto};
ghost use Rattle.l2_tree_names.specs.Declarators.{name_of, parameters_of};
ghost use Rattle.l2_types.specs.States.{saw, lookup};
ghost use Rattle.l2_types_unit.specs.Typed.{function_tree};
ghost use Rattle.l2_types_unit.specs.Units.{setting, numbers, function_body, unless_met, defined_as, with_type, definition, external, also, externals_from};

use l2_bits::List;
use l2_syntax::{Place, Rule};
use l2_tree::{Declarator, External, Parameter, Stmt};
use l2_tree_names::{DeclaredName, name_of, parameters_of};
use l2_types::{Builtin, CType, CheckError, Meaning, Table};
use l2_types_declarations::{
    DeclaredType, all_parameters, declaration, has_const, prototype, type_definition, type_start,
    typed,
};
use l2_types_expr::{BaseName, specified};
use l2_types_statements::{Cases, Checked, Setting, items};
use std::alloc::Global;

/// A function: its name, the objects of its parameters, the type of its result, and the items of its body.
#[derive(Drop)]
pub struct TypedFunction {
    pub name: u32,
    pub place: Place,
    pub parameters: List<u32>,
    pub result: CType,
    pub body: List<Checked>,
}

/// The setting of the items of a function's body.
fn setting(t: CType) -> Setting
    ensures { result ≡ setting t }
{
    Setting {
        breaks: false,
        continues: false,
        cases: Cases::Absent,
        opens: Cases::Absent,
        result: t,
    }
}

/// So many numbers from one on.
#[tactic(auto, using(crate::proofs::Counted::counted))]
fn numbers(alloc: Global, from: u32, count: u32) -> Result<Vec<u32>, CheckError>
    ensures ok { IfOk result (λ v. v.items ≡ numbers [] from count) }
{
    let mut all = Vec::new(alloc);
    let mut number = from;
    let mut left = count;
    while left > 0 {
        all.push(number)?;
        if number == u32::MAX {
            return Err(CheckError::NoMemory);
        }
        number += 1;
        left -= 1;
    }
    Ok(all)
}

/// How many objects there are.
fn object_count(table: &Table) -> Result<u32, CheckError>
    ensures ok { IfOk result (λ n. n ≡ length table.now.objects) }
{
    let count = table.objects().len();
    if count > u32::MAX as usize {
        return Err(CheckError::NoMemory);
    }
    Ok(count as u32)
}

/// The number behind another.
fn number_behind(n: u32) -> Result<u32, CheckError>
    ensures ok { IfOk result (λ k. k ≡ n + 1) }
{
    if n == u32::MAX {
        return Err(CheckError::NoMemory);
    }
    Ok(n + 1)
}

/// The parameters and the items of a function's body.
#[tactic(auto, using(l2_types::proofs::Steps::steps))]
fn function_body(
    alloc: Global,
    table: &mut Table,
    nm: DeclaredName,
    t: CType,
    parameters: &[Parameter],
    all: &[Stmt],
) -> Result<Option<TypedFunction>, CheckError>
    ensures ok { IfOk result (λ f. function_body nm t (parameters_onto no_parameters parameters.now) (stmts_onto no_stmts all.now) table.old ≡ saw (option_map function_tree f) table.new) }
{
    let number = table.function_number(nm.name)?;
    let before = object_count(table)?;
    let outer = table.scope();
    table.inside_function(number);
    let _ = table.enter()?;
    let _ = all_parameters(alloc, table, true, parameters)?;
    let after = object_count(table)?;
    let body = items(alloc, table, setting(t), all)?;
    table.leave(outer);
    table.outside_functions();
    let first = number_behind(before)?;
    let objects = numbers(alloc, first, after.saturating_sub(before))?;
    Ok(Some(TypedFunction {
        name: nm.name,
        place: nm.place,
        parameters: List::new(objects),
        result: t,
        body: List::new(body),
    }))
}

/// A function's definition, unless it is a second one.
fn unless_met(
    alloc: Global,
    table: &mut Table,
    nm: DeclaredName,
    t: CType,
    parameters: &[Parameter],
    all: &[Stmt],
) -> Result<Option<TypedFunction>, CheckError>
    ensures ok { IfOk result (λ f. unless_met nm t (parameters_onto no_parameters parameters.now) (stmts_onto no_stmts all.now) table.old ≡ saw (option_map function_tree f) table.new) }
{
    if table.is_met(nm.name) {
        table.fault(nm.place, Rule::Redeclared)?;
        return Ok(None);
    }
    table.with_met(nm.name)?;
    function_body(alloc, table, nm, t, parameters, all)
}

/// A function's definition, by what its name stands for.
fn defined_as(
    alloc: Global,
    table: &mut Table,
    nm: DeclaredName,
    t: CType,
    is_const: bool,
    types: List<CType>,
    parameters: &[Parameter],
    all: &[Stmt],
) -> Result<Option<TypedFunction>, CheckError>
    ensures ok { IfOk result (λ f. defined_as (lookup table.old nm.name) nm t is_const types (parameters_onto no_parameters parameters.now) (stmts_onto no_stmts all.now) table.old ≡ saw (option_map function_tree f) table.new) }
{
    match table.lookup(nm.name) {
        Some(Meaning::Builtin(b)) => match b {
            Builtin::ReachError => unless_met(alloc, table, nm, t, parameters, all),
            _ => {
                table.fault(nm.place, Rule::Redeclared)?;
                Ok(None)
            }
        },
        _ => {
            prototype(table, nm, t, is_const, types)?;
            unless_met(alloc, table, nm, t, parameters, all)
        }
    }
}

/// A definition whose declarator has a type.
fn with_type(
    alloc: Global,
    table: &mut Table,
    nm: DeclaredName,
    t: DeclaredType,
    d: &Declarator,
    all: &[Stmt],
) -> Result<Option<TypedFunction>, CheckError>
    ensures ok { IfOk result (λ f. with_type t nm (parameters_of (declarator_tree d.now)) (stmts_onto no_stmts all.now) table.old ≡ saw (option_map function_tree f) table.new) }
{
    match t {
        DeclaredType::Function(t, is_const, types) => match parameters_of(d) {
            None => Ok(None),
            Some(parameters) => {
                defined_as(alloc, table, nm, t, is_const, types, parameters, all)
            }
        },
        DeclaredType::Unknown | DeclaredType::Object(_, _) => Ok(None),
    }
}

/// A definition behind the type that its specifiers name.
#[tactic(auto, using(l2_types::proofs::Steps::steps))]
fn definition(
    alloc: Global,
    table: &mut Table,
    base: BaseName,
    is_const: bool,
    place: Place,
    d: &Declarator,
    all: &[Stmt],
) -> Result<Option<TypedFunction>, CheckError>
    ensures ok { IfOk result (λ f. definition base is_const place (declarator_tree d.now) (name_of (declarator_tree d.now)) (stmts_onto no_stmts all.now) table.old ≡ saw (option_map function_tree f) table.new) }
{
    match name_of(d) {
        None => Ok(None),
        Some(nm) => {
            let t = typed(alloc, table, base, is_const, place, d)?;
            with_type(alloc, table, nm, t, d, all)
        }
    }
}

/// A part of a text at file scope.
#[tactic(auto, using(l2_types::proofs::Steps::steps))]
fn external(
    alloc: Global,
    table: &mut Table,
    x: &External,
) -> Result<Option<TypedFunction>, CheckError>
    ensures ok { IfOk result (λ f. external (external_tree x.now) table.old ≡ saw (option_map function_tree f) table.new) }
{
    match x {
        External::Empty => Ok(None),
        External::Declaration(d) => {
            let _ = declaration(alloc, table, d)?;
            Ok(None)
        }
        External::Typedef(_, d) => {
            type_definition(alloc, table, d)?;
            Ok(None)
        }
        External::Function(xs, d, _, all) => {
            let base = specified(alloc, table, xs)?;
            definition(alloc, table, base, has_const(xs), type_start(xs), d, all)
        }
    }
}

#[tactic(auto, using(crate::proofs::Functions::functions))]
fn also(functions: &mut Vec<TypedFunction>, f: Option<TypedFunction>) -> Result<(), CheckError>
    ensures ok { IfOk result (λ u. map function_tree functions.new.items ≡ also (map function_tree functions.old.items) (option_map function_tree f)) }
{
    match f {
        None => Ok(()),
        Some(f) => {
            functions.push(f)?;
            Ok(())
        }
    }
}

/// The parts of a text, one after another.
#[tactic(auto, using(l2_types::proofs::Steps::steps))]
pub fn externals(
    alloc: Global,
    table: &mut Table,
    all: &[External],
) -> Result<Vec<TypedFunction>, CheckError>
    ensures ok { IfOk result (λ fs. externals_from (map external_tree all.now) (saw [] table.old) ≡ saw (map function_tree fs.items) table.new) }
{
    let mut functions = Vec::new(alloc);
    for x in all {
        let f = external(alloc, table, x)?;
        also(&mut functions, f)?;
    }
    Ok(functions)
}
