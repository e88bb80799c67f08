// What a text defines at file scope.
ghost use Rattle.std.specs.Prelude.{◌≡◌, map, [], IfOk, option_map};
ghost use Rattle.l2_tree.specs.Trees.{no_declarators};
ghost use Rattle.l2_tree.specs.Units.{external_tree, declarator_tree, declared_tree, declarators_onto, declaration_tree};
ghost use Rattle.l2_tree_names.specs.Declarators.{name_of, parameters_of};
ghost use Rattle.l2_types_unit.specs.Defined.{with_name, with_function, functions_from, with_variable, uninitialised, with_declarator, with_declarators, with_declaration, with_variables, variables_from};

use l2_tree::{Declaration, Declarator, Declared, External, SpecifierWord};
use l2_tree_names::{DeclaredName, name_of, parameters_of, storage_of};
use l2_types::{CheckError, Named};
use std::alloc::Global;

fn with_name(names: &mut Vec<u32>, nm: Option<DeclaredName>) -> Result<(), CheckError>
    ensures ok { IfOk result (λ u. names.new.items ≡ with_name names.old.items nm) }
{
    match nm {
        None => Ok(()),
        Some(nm) => {
            names.push(nm.name)?;
            Ok(())
        }
    }
}

fn with_function(names: &mut Vec<u32>, x: &External) -> Result<(), CheckError>
    ensures ok { IfOk result (λ u. names.new.items ≡ with_function names.old.items (external_tree x.now)) }
{
    match x {
        External::Function(_, d, _, _) => with_name(names, name_of(d)),
        External::Empty | External::Declaration(_) | External::Typedef(_, _) => Ok(()),
    }
}

/// The names of the functions that are defined, in their order.
pub fn functions(alloc: Global, all: &[External]) -> Result<Vec<u32>, CheckError>
    ensures ok { IfOk result (λ v. v.items ≡ functions_from [] (map external_tree all.now)) }
{
    let mut names = Vec::new(alloc);
    for x in all {
        with_function(&mut names, x)?;
    }
    Ok(names)
}

fn with_variable(variables: &mut Vec<Named>, d: &Declarator) -> Result<(), CheckError>
    ensures ok { IfOk result (λ u. variables.new.items ≡ with_variable variables.old.items (name_of (declarator_tree d.now)) (parameters_of (declarator_tree d.now))) }
{
    match name_of(d) {
        None => Ok(()),
        Some(nm) => match parameters_of(d) {
            None => {
                variables.push(Named {
                    name: nm.name,
                    place: nm.place,
                })?;
                Ok(())
            }
            Some(_) => Ok(()),
        },
    }
}

fn uninitialised(
    variables: &mut Vec<Named>,
    word: Option<SpecifierWord>,
    d: &Declarator,
) -> Result<(), CheckError>
    ensures ok { IfOk result (λ u. variables.new.items ≡ uninitialised word variables.old.items (declarator_tree d.now)) }
{
    match word {
        Some(SpecifierWord::Extern) => Ok(()),
        _ => with_variable(variables, d),
    }
}

#[tactic(auto, using(crate::proofs::Declarators::one_declarator))]
fn with_declarator(
    variables: &mut Vec<Named>,
    word: Option<SpecifierWord>,
    d: &Declared,
) -> Result<(), CheckError>
    ensures ok { IfOk result (λ u. variables.new.items ≡ with_declarator word variables.old.items (declared_tree d.now)) }
{
    match d {
        Declared::Plain(d) => uninitialised(variables, word, d),
        Declared::Initialised(d, _, _) => with_variable(variables, d),
    }
}

#[tactic(auto, using(crate::proofs::Declarators::declarator_rows))]
fn with_declarators(
    variables: &mut Vec<Named>,
    word: Option<SpecifierWord>,
    all: &[Declared],
) -> Result<(), CheckError>
    ensures ok { IfOk result (λ u. variables.new.items ≡ with_declarators word variables.old.items (declarators_onto no_declarators all.now)) }
{
    for d in all {
        with_declarator(variables, word, d)?;
    }
    Ok(())
}

fn with_declaration(variables: &mut Vec<Named>, d: &Declaration) -> Result<(), CheckError>
    ensures ok { IfOk result (λ u. variables.new.items ≡ with_declaration variables.old.items (declaration_tree d.now)) }
{
    with_declarators(variables, storage_of(&d.specifiers), &d.declarators)
}

fn with_variables(variables: &mut Vec<Named>, x: &External) -> Result<(), CheckError>
    ensures ok { IfOk result (λ u. variables.new.items ≡ with_variables variables.old.items (external_tree x.now)) }
{
    match x {
        External::Declaration(d) => with_declaration(variables, d),
        External::Empty | External::Typedef(_, _) | External::Function(_, _, _, _) => Ok(()),
    }
}

/// The variables of file scope that are defined, in their order.
pub fn variables(alloc: Global, all: &[External]) -> Result<Vec<Named>, CheckError>
    ensures ok { IfOk result (λ v. v.items ≡ variables_from [] (map external_tree all.now)) }
{
    let mut found = Vec::new(alloc);
    for x in all {
        with_variables(&mut found, x)?;
    }
    Ok(found)
}
