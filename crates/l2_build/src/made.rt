// Parts of a tree with rows of other parts in them.
ghost use Rattle.std.specs.Prelude.{◌≡◌, IfOk, IfErr};
ghost use Rattle.l2_tree.specs.Trees.{Call as call_tree, StructBody as struct_tree, EnumBody as enum_tree, Bare as bare_tree, Declared as declared_parameter, Group as group_tree, Parameters as parameters_tree, Braced as braced_tree, Uninitialised as uninitialised_tree, Initialised as initialised_tree, no_exprs, no_declarations, no_parameters};
ghost use Rattle.l2_tree.specs.Units.{expr_tree, exprs_onto, specifier_tree, specifiers_tree, declarations_onto, enumerators_tree, parameter_tree, parameters_onto, core_tree, declarator_tree, suffix_tree, initialiser_tree, initialisers_tree, declared_tree};

use crate::error::BuildError;
use l2_syntax::Place;
use l2_tree::{
    Core, Declaration, Declarator, Declared, Enumerators, Expr, Initialiser, Initialisers,
    Parameter, Specifier, Specifiers, Suffix, Tag,
};
use std::alloc::Global;

/// A call with its arguments.
pub fn call(
    alloc: Global,
    function: Box<Expr>,
    place: Place,
    arguments: Vec<Expr>,
) -> Result<Box<Expr>, BuildError>
    ensures ok { IfOk result (λ e. expr_tree e.value ≡ call_tree (expr_tree function.value) place (exprs_onto no_exprs arguments.items)) }
    ensures err { IfErr result (λ f. f ≡ BuildError.NoMemory) }
{
    Ok(Box::new(alloc, Expr::Call(function, place, arguments))?)
}

/// A struct with its members.
pub fn structure(
    alloc: Global,
    place: Place,
    tag: Option<Tag>,
    brace: Place,
    members: Vec<Declaration>,
) -> Result<Box<Specifier>, BuildError>
    ensures ok { IfOk result (λ s. specifier_tree s.value ≡ struct_tree place tag brace (declarations_onto no_declarations members.items)) }
    ensures err { IfErr result (λ f. f ≡ BuildError.NoMemory) }
{
    Ok(Box::new(alloc, Specifier::StructBody(place, tag, brace, members))?)
}

/// An enum with its enumerators.
pub fn enumeration(
    alloc: Global,
    place: Place,
    tag: Option<Tag>,
    brace: Place,
    enumerators: Enumerators,
    comma: bool,
) -> Result<Box<Specifier>, BuildError>
    ensures ok { IfOk result (λ s. specifier_tree s.value ≡ enum_tree place tag brace (enumerators_tree enumerators) comma) }
    ensures err { IfErr result (λ f. f ≡ BuildError.NoMemory) }
{
    Ok(Box::new(
        alloc,
        Specifier::EnumBody(place, tag, brace, enumerators, comma),
    )?)
}

/// A parameter without a declarator.
pub fn bare(alloc: Global, specifiers: Specifiers) -> Result<Box<Parameter>, BuildError>
    ensures ok { IfOk result (λ t. parameter_tree t.value ≡ bare_tree (specifiers_tree specifiers)) }
    ensures err { IfErr result (λ f. f ≡ BuildError.NoMemory) }
{
    Ok(Box::new(alloc, Parameter::Plain(specifiers))?)
}

/// A parameter with a declarator.
pub fn with_declarator(
    alloc: Global,
    specifiers: Specifiers,
    declarator: Declarator,
) -> Result<Box<Parameter>, BuildError>
    ensures ok { IfOk result (λ t. parameter_tree t.value ≡ declared_parameter (specifiers_tree specifiers) (declarator_tree declarator)) }
    ensures err { IfErr result (λ f. f ≡ BuildError.NoMemory) }
{
    Ok(Box::new(alloc, Parameter::Declared(specifiers, declarator))?)
}

/// `( declarator )`.
pub fn grouped(place: Place, inner: Box<Declarator>) -> Core
    ensures { core_tree result ≡ group_tree place (declarator_tree inner.value) }
{
    Core::Group(place, inner)
}

/// `( parameters )`.
pub fn parameter_list(place: Place, parameters: Vec<Parameter>) -> Suffix
    ensures { suffix_tree result ≡ parameters_tree place (parameters_onto no_parameters parameters.items) }
{
    Suffix::Parameters(place, parameters)
}

/// `{ .. }`.
pub fn braced(
    alloc: Global,
    place: Place,
    items: Initialisers,
    comma: bool,
) -> Result<Box<Initialiser>, BuildError>
    ensures ok { IfOk result (λ i. initialiser_tree i.value ≡ braced_tree place (initialisers_tree items) comma) }
    ensures err { IfErr result (λ f. f ≡ BuildError.NoMemory) }
{
    Ok(Box::new(alloc, Initialiser::Braced(place, items, comma))?)
}

fn plain_declared(declarator: Declarator) -> Declared
    ensures { declared_tree result ≡ uninitialised_tree (declarator_tree declarator) }
{
    Declared::Plain(declarator)
}

/// A declarator without an initialiser.
pub fn uninitialised(
    alloc: Global,
    declarator: Box<Declarator>,
) -> Result<Box<Declared>, BuildError>
    ensures ok { IfOk result (λ d. declared_tree d.value ≡ uninitialised_tree (declarator_tree declarator.value)) }
    ensures err { IfErr result (λ f. f ≡ BuildError.NoMemory) }
{
    let whole = plain_declared(Box::into_inner(declarator));
    Ok(Box::new(alloc, whole)?)
}

fn valued_declared(declarator: Declarator, place: Place, value: Initialiser) -> Declared
    ensures { declared_tree result ≡ initialised_tree (declarator_tree declarator) place (initialiser_tree value) }
{
    Declared::Initialised(declarator, place, value)
}

/// A declarator with an initialiser.
pub fn initialised(
    alloc: Global,
    declarator: Box<Declarator>,
    place: Place,
    value: Box<Initialiser>,
) -> Result<Box<Declared>, BuildError>
    ensures ok { IfOk result (λ d. declared_tree d.value ≡ initialised_tree (declarator_tree declarator.value) place (initialiser_tree value.value)) }
    ensures err { IfErr result (λ f. f ≡ BuildError.NoMemory) }
{
    let whole = valued_declared(Box::into_inner(declarator), place, Box::into_inner(value));
    Ok(Box::new(alloc, whole)?)
}
