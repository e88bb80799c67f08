// Units.
ghost use Rattle.std.specs.Prelude.{◌≡◌, Some, None, map, IfOk, IsErrOf};
ghost use Rattle.l2_tree.specs.Trees.{no_parameters, and_parameter, no_suffixes, and_suffix, no_stmts};
ghost use Rattle.l2_tree.specs.Units.{parameter_tree, parameters_onto, suffix_tree, suffixes_onto, declarator_tree, stmts_onto, external_tree, unit_tree};
ghost use Rattle.l2_small.specs.SmallTrees.{none, small_stmts_onto, small_unit_tree};
ghost use Rattle.l2_small.specs.SmallForm.{is_nothing, takes_nothing, main_place, main_tree, main_with, small_external, small_externals, small_of};

use crate::declarations::{is_int, is_void, word_alone};
use crate::error::SmallError;
use crate::statements::statements;
use crate::tree::{SmallStmt, SmallUnit};
use crate::words::is_main;
use l2_syntax::{Name, Place};
use l2_tree::{Core, Declarator, External, Parameter, Stmt, Suffix, Unit};
use std::alloc::Global;

/// Whether a parameter is `void` alone.
#[tactic(auto, using(crate::proofs::Mains::parameters))]
fn is_void_alone(p: &Parameter) -> bool
    ensures { result ≡ is_nothing (and_parameter no_parameters (parameter_tree p.now)) }
{
    match p {
        Parameter::Plain(specifiers) => is_void(word_alone(specifiers)),
        Parameter::Declared(..) => false,
    }
}

/// Whether parameters are `void` alone.
#[tactic(auto, using(crate::proofs::Mains::parameters))]
fn is_nothing(all: &[Parameter]) -> bool
    ensures { result ≡ is_nothing (parameters_onto no_parameters all.now) }
{
    match all {
        [only] => is_void_alone(only),
        _ => false,
    }
}

/// Whether what stands behind a name is `(void)`.
#[tactic(auto, using(crate::proofs::Mains::suffixes))]
fn is_empty_list(x: &Suffix) -> bool
    ensures { result ≡ takes_nothing (and_suffix no_suffixes (suffix_tree x.now)) }
{
    match x {
        Suffix::Parameters(_, all) => is_nothing(all),
        Suffix::Array(..) | Suffix::ArrayOf(..) => false,
    }
}

/// Whether all that stands behind a name is one `(void)`.
#[tactic(auto, using(crate::proofs::Mains::suffixes))]
fn takes_nothing(all: &[Suffix]) -> bool
    ensures { result ≡ takes_nothing (suffixes_onto no_suffixes all.now) }
{
    match all {
        [only] => is_empty_list(only),
        _ => false,
    }
}

/// Where the name of `main(void)` stands.
#[tactic(auto, using(crate::proofs::Mains::mains))]
fn main_place(names: &[Name], d: &Declarator) -> Option<Place>
    ensures { result ≡ main_place names.now (declarator_tree d.now) }
{
    match &d.core {
        Core::Name(name, place) => {
            if !d.pointers.is_empty() {
                None
            } else if is_main(names, *name) && takes_nothing(&d.suffixes) {
                Some(*place)
            } else {
                None
            }
        }
        Core::Absent | Core::Group(..) => None,
    }
}

/// Where the name `main` stands, and the items of its body.
#[derive(Drop)]
struct MainBody {
    main: Place,
    items: Vec<SmallStmt>,
}

/// `main(void) { .. }`.
#[tactic(auto, using(crate::proofs::Steps::steps))]
fn main_body(
    alloc: Global,
    names: &[Name],
    d: &Declarator,
    all: &[Stmt],
) -> Result<MainBody, SmallError>
    ensures ok { IfOk result (λ r. main_with names.now (declarator_tree d.now) (stmts_onto no_stmts all.now) ≡ Some (main_tree r.main (small_stmts_onto none r.items.items))) }
    ensures not_small { IsErrOf result SmallError.NotSmall → main_with names.now (declarator_tree d.now) (stmts_onto no_stmts all.now) ≡ None }
{
    match main_place(names, d) {
        Some(main) => {
            let items = statements(alloc, names, all)?;
            Ok(MainBody { main, items })
        }
        None => Err(SmallError::NotSmall),
    }
}

/// `int main(void) { .. }`.
#[tactic(auto, using(crate::proofs::Steps::steps))]
fn external_body(alloc: Global, names: &[Name], x: &External) -> Result<MainBody, SmallError>
    ensures ok { IfOk result (λ r. small_external names.now (external_tree x.now) ≡ Some (main_tree r.main (small_stmts_onto none r.items.items))) }
    ensures not_small { IsErrOf result SmallError.NotSmall → small_external names.now (external_tree x.now) ≡ None }
{
    match x {
        External::Function(specifiers, d, _, all) => {
            if is_int(word_alone(specifiers)) {
                main_body(alloc, names, d, all)
            } else {
                Err(SmallError::NotSmall)
            }
        }
        External::Empty | External::Declaration(..) | External::Typedef(..) => {
            Err(SmallError::NotSmall)
        }
    }
}

/// The body of the one external of a text.
#[tactic(auto, using(crate::proofs::Mains::externals))]
fn only_body(alloc: Global, names: &[Name], all: &[External]) -> Result<MainBody, SmallError>
    ensures ok { IfOk result (λ r. small_externals names.now (map external_tree all.now) ≡ Some (main_tree r.main (small_stmts_onto none r.items.items))) }
    ensures not_small { IsErrOf result SmallError.NotSmall → small_externals names.now (map external_tree all.now) ≡ None }
{
    match all {
        [only] => external_body(alloc, names, only),
        _ => Err(SmallError::NotSmall),
    }
}

/// The small tree of a text, where it is of the small form (C11 as `docs/language.md` restricts it).
pub fn small(alloc: Global, unit: Unit) -> Result<SmallUnit, SmallError>
    ensures ok { IfOk result (λ r. small_of (unit_tree unit) ≡ Some (small_unit_tree r)) }
    ensures not_small { IsErrOf result SmallError.NotSmall → small_of (unit_tree unit) ≡ None }
{
    let Unit {
        externals,
        names,
        constants,
    } = unit;
    let MainBody { main, items } = only_body(alloc, names.as_slice(), externals.as_slice())?;
    Ok(SmallUnit {
        main,
        items,
        names,
        constants,
    })
}
