// Declarations.
ghost use Rattle.std.specs.Prelude.{◌≡◌, map, option_map, IfOk};
ghost use Rattle.l2_tree.specs.Trees.{no_declarators};
ghost use Rattle.l2_tree.specs.Units.{declarator_tree, declared_tree, declarators_onto, declaration_tree};
ghost use Rattle.l2_types.specs.States.{saw, lookup};
ghost use Rattle.l2_types.specs.Scopes.{is_builtin};
ghost use Rattle.l2_tree_names.specs.Declarators.{name_of};
ghost use Rattle.l2_types_declarations.specs.Initialisers.{item_tree};
ghost use Rattle.l2_types_declarations.specs.Declarations.{is_function_name, declares_function, builtin_again, declare_name, target_for, declarator, also, declarators, declaration, type_declared, type_declarator, type_declarators, type_definition};

use crate::forms::{has_const, is_bare, type_start};
use crate::initialisers::{begins, without};
use crate::names::{declare_as, declare_type, redeclared};
use crate::parameters::typed;
use crate::types::{Item, Target};
use l2_syntax::Place;
use l2_tree::{Declaration, Declarator, Declared, SpecifierWord};
use l2_tree_names::{DeclaredName, name_of, parameters_of, storage_of};
use l2_types::{CheckError, Meaning, Table};
use l2_types_expr::{BaseName, specified};
use std::alloc::Global;

fn is_function_name(base: BaseName) -> bool
    ensures { result ≡ is_function_name base }
{
    match base {
        BaseName::FunctionType(_) => true,
        _ => false,
    }
}

/// Whether a declarator behind a type declares a function.
fn declares_function(base: BaseName, d: &Declarator) -> bool
    ensures { result ≡ declares_function base (declarator_tree d.now) }
{
    parameters_of(d).is_some() || is_function_name(base) && is_bare(d)
}

/// A built-in name, whose prototypes are skipped.
fn builtin_again(
    table: &mut Table,
    is_prototype: bool,
    nm: DeclaredName,
) -> Result<Target, CheckError>
    ensures ok { IfOk result (λ t. builtin_again is_prototype nm table.old ≡ saw t table.new) }
{
    if is_prototype {
        return Ok(Target::Nothing);
    }
    redeclared(table, nm)
}

/// Whether a name is built in.
pub fn is_builtin(table: &Table, name: u32) -> bool
    ensures { result ≡ is_builtin (lookup table.now name) }
{
    match table.lookup(name) {
        Some(Meaning::Builtin(_)) => true,
        _ => false,
    }
}

#[tactic(auto, using(l2_types::proofs::Steps::steps))]
fn declare_name(
    alloc: Global,
    table: &mut Table,
    word: Option<SpecifierWord>,
    is_initialised: bool,
    base: BaseName,
    is_const: bool,
    place: Place,
    d: &Declarator,
    nm: DeclaredName,
) -> Result<Target, CheckError>
    ensures ok { IfOk result (λ t. declare_name word is_initialised base is_const place (declarator_tree d.now) nm table.old ≡ saw t table.new) }
{
    if is_builtin(table, nm.name) {
        return builtin_again(table, declares_function(base, d), nm);
    }
    let t = typed(alloc, table, base, is_const, place, d)?;
    declare_as(table, word, is_initialised, nm, t, place)
}

/// The name of a declarator is declared.
fn target_for(
    alloc: Global,
    table: &mut Table,
    word: Option<SpecifierWord>,
    is_initialised: bool,
    base: BaseName,
    is_const: bool,
    place: Place,
    d: &Declarator,
) -> Result<Target, CheckError>
    ensures ok { IfOk result (λ t. target_for word is_initialised base is_const place (declarator_tree d.now) (name_of (declarator_tree d.now)) table.old ≡ saw t table.new) }
{
    match name_of(d) {
        None => Ok(Target::Nothing),
        Some(nm) => declare_name(
            alloc,
            table,
            word,
            is_initialised,
            base,
            is_const,
            place,
            d,
            nm,
        ),
    }
}

/// A declarator with its initialiser.
#[tactic(auto, using(l2_types::proofs::Steps::steps, crate::proofs::Declarators::one_declarator))]
fn declarator(
    alloc: Global,
    table: &mut Table,
    word: Option<SpecifierWord>,
    base: BaseName,
    is_const: bool,
    place: Place,
    d: &Declared,
) -> Result<Option<Item>, CheckError>
    ensures ok { IfOk result (λ o. declarator word base is_const place (declared_tree d.now) table.old ≡ saw (option_map item_tree o) table.new) }
{
    match d {
        Declared::Plain(d) => {
            let target = target_for(alloc, table, word, false, base, is_const, place, d)?;
            Ok(without(target))
        }
        Declared::Initialised(d, _, i) => {
            let target = target_for(alloc, table, word, true, base, is_const, place, d)?;
            begins(alloc, table, target, i)
        }
    }
}

#[tactic(auto, using(crate::proofs::Declarators::item_rows))]
fn also(items: &mut Vec<Item>, item: Option<Item>) -> Result<(), CheckError>
    ensures ok { IfOk result (λ u. map item_tree items.new.items ≡ also (map item_tree items.old.items) (option_map item_tree item)) }
{
    match item {
        None => Ok(()),
        Some(item) => {
            items.push(item)?;
            Ok(())
        }
    }
}

/// The declarators of a declaration, one after another.
#[tactic(auto, using(l2_types::proofs::Steps::steps, crate::proofs::Declarators::declarator_rows))]
fn declarators(
    alloc: Global,
    table: &mut Table,
    word: Option<SpecifierWord>,
    base: BaseName,
    is_const: bool,
    place: Place,
    all: &[Declared],
) -> Result<Vec<Item>, CheckError>
    ensures ok { IfOk result (λ xs. declarators word base is_const place (declarators_onto no_declarators all.now) table.old ≡ saw (map item_tree xs.items) table.new) }
{
    let mut items = Vec::new(alloc);
    for d in all {
        let item = declarator(alloc, table, word, base, is_const, place, d)?;
        also(&mut items, item)?;
    }
    Ok(items)
}

/// A declaration: what it declares becomes known. The answer is what it does where it is reached.
#[tactic(auto, using(l2_types::proofs::Steps::steps))]
pub fn declaration(
    alloc: Global,
    table: &mut Table,
    d: &Declaration,
) -> Result<Vec<Item>, CheckError>
    ensures ok { IfOk result (λ xs. declaration (declaration_tree d.now) table.old ≡ saw (map item_tree xs.items) table.new) }
{
    let base = specified(alloc, table, &d.specifiers)?;
    declarators(
        alloc,
        table,
        storage_of(&d.specifiers),
        base,
        has_const(&d.specifiers),
        type_start(&d.specifiers),
        &d.declarators,
    )
}

#[tactic(auto, using(l2_types::proofs::Steps::steps, l2_types::proofs::Steps::states))]
fn type_declared(
    alloc: Global,
    table: &mut Table,
    base: BaseName,
    is_const: bool,
    place: Place,
    d: &Declarator,
) -> Result<(), CheckError>
    ensures ok { IfOk result (λ u. table.new ≡ type_declared base is_const place (declarator_tree d.now) (name_of (declarator_tree d.now)) table.old) }
{
    match name_of(d) {
        None => Ok(()),
        Some(nm) => {
            let t = typed(alloc, table, base, is_const, place, d)?;
            declare_type(table, nm, t)
        }
    }
}

/// A declarator behind `typedef`.
#[tactic(auto, using(crate::proofs::Declarators::one_declarator))]
fn type_declarator(
    alloc: Global,
    table: &mut Table,
    base: BaseName,
    is_const: bool,
    place: Place,
    d: &Declared,
) -> Result<(), CheckError>
    ensures ok { IfOk result (λ u. table.new ≡ type_declarator base is_const place (declared_tree d.now) table.old) }
{
    match d {
        Declared::Plain(d) => type_declared(alloc, table, base, is_const, place, d),
        Declared::Initialised(d, _, _) => type_declared(alloc, table, base, is_const, place, d),
    }
}

#[tactic(auto, using(crate::proofs::Declarators::type_rows))]
fn type_declarators(
    alloc: Global,
    table: &mut Table,
    base: BaseName,
    is_const: bool,
    place: Place,
    all: &[Declared],
) -> Result<(), CheckError>
    ensures ok { IfOk result (λ u. table.new ≡ type_declarators base is_const place (declarators_onto no_declarators all.now) table.old) }
{
    for d in all {
        type_declarator(alloc, table, base, is_const, place, d)?;
    }
    Ok(())
}

/// `typedef` and a declaration.
#[tactic(auto, using(l2_types::proofs::Steps::steps, l2_types::proofs::Steps::states))]
pub fn type_definition(alloc: Global, table: &mut Table, d: &Declaration) -> Result<(), CheckError>
    ensures ok { IfOk result (λ u. table.new ≡ type_definition (declaration_tree d.now) table.old) }
{
    let base = specified(alloc, table, &d.specifiers)?;
    type_declarators(
        alloc,
        table,
        base,
        has_const(&d.specifiers),
        type_start(&d.specifiers),
        &d.declarators,
    )
}
