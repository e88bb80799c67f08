// Declarations.
ghost use Rattle.std.specs.Prelude.{◌≡◌, ◌≢◌, ◌≤◌, ◌<◌, ◌∷◌, IfOk, IfErr, None, Some};
ghost use Rattle.l2_tree.specs.Build.{leaf, initialised as initialised_so, declaration_of as as_declaration, declared as declared_so, declarators as declarators_so, declared_end as declared_end_so};
ghost use Rattle.l2_tree.specs.Trees.{SpecifierTrees, DeclaredTrees, no_declarators, and_declarator, Declaration as declaration_with};
ghost use Rattle.l2_tree.specs.Units.{declaration_tree, declarators_onto, declared_tree, declarator_tree, specifiers_tree};
ghost use Rattle.l2_build.specs.Parts.{parts_of, size_of};

use crate::declarators::declarator_of;
use crate::error::BuildError;
use crate::initialisers::initialiser_of;
use crate::made::{initialised, uninitialised};
use crate::next::{Next, split};
use crate::specifiers::{Front, specifiers_of};
use l2_networks::is;
use l2_reader::Syntax;
use l2_syntax::{Mark, Place, Token, TokenKind};
use l2_tree::{Declaration, Declarator, Declared, Specifiers};
use std::alloc::Global;

/// A declarator with what belongs to it, the token behind it and the parts behind that.
#[derive(Drop)]
struct OneDeclared<'a> {
    value: Box<Declared>,
    mark: TokenKind,
    rest: &'a [Syntax],
}

/// A declarator's initialiser, behind the `=`.
#[cycle(build)]
fn with_initialiser<'a>(
    alloc: Global,
    declarator: Box<Declarator>,
    place: Place,
    parts: &'a [Syntax],
) -> Result<OneDeclared<'a>, BuildError>
    ensures ok { IfOk result (λ r. (xs : SpecifierTrees) (ds : DeclaredTrees) → initialised_so xs ds (declarator_tree declarator.value) place (parts_of parts.now) ≡ declared_end_so xs (and_declarator ds (declared_tree r.value.value)) r.mark (parts_of r.rest.now) (declarators_so xs (and_declarator ds (declared_tree r.value.value)) (parts_of r.rest.now))) }
    ensures less { IfOk result (λ r. size_of r.rest.now ≤ size_of parts.now) }
    ensures err { IfErr result (λ e. e ≢ BuildError.NoMemory → (xs : SpecifierTrees) (ds : DeclaredTrees) → initialised_so xs ds (declarator_tree declarator.value) place (parts_of parts.now) ≡ None) }
{
    let Next::Node(inner, behind) = split(parts) else {
        return Err(BuildError::Misfit);
    };
    let Next::Leaf(end, rest) = split(behind) else {
        return Err(BuildError::Misfit);
    };
    let initialiser = initialiser_of(alloc, inner)?;
    let value = initialised(alloc, declarator, place, initialiser)?;
    Ok(OneDeclared {
        value,
        mark: end.kind,
        rest,
    })
}

/// A declarator, perhaps with an initialiser.
#[cycle(build)]
fn one_declared<'a>(alloc: Global, parts: &'a [Syntax]) -> Result<OneDeclared<'a>, BuildError>
    ensures ok { IfOk result (λ r. (xs : SpecifierTrees) (ds : DeclaredTrees) → declarators_so xs ds (parts_of parts.now) ≡ declared_end_so xs (and_declarator ds (declared_tree r.value.value)) r.mark (parts_of r.rest.now) (declarators_so xs (and_declarator ds (declared_tree r.value.value)) (parts_of r.rest.now))) }
    ensures less { IfOk result (λ r. size_of r.rest.now < size_of parts.now) }
    ensures err { IfErr result (λ e. e ≢ BuildError.NoMemory → (xs : SpecifierTrees) (ds : DeclaredTrees) → declarators_so xs ds (parts_of parts.now) ≡ None) }
{
    let Next::Node(inner, behind) = split(parts) else {
        return Err(BuildError::Misfit);
    };
    let Next::Leaf(mark, rest) = split(behind) else {
        return Err(BuildError::Misfit);
    };
    let declarator = declarator_of(alloc, inner)?;
    if is(Mark::Equal, mark.kind) {
        return match with_initialiser(alloc, declarator, mark.place, rest) {
            Ok(one) => Ok(one),
            Err(fault) => Err(fault),
        };
    }
    let value = uninitialised(alloc, declarator)?;
    Ok(OneDeclared {
        value,
        mark: mark.kind,
        rest,
    })
}

/// Declarators up to the semicolon, one at least.
#[cycle(build)]
#[tactic(auto, using(l2_tree::proofs::Declarations::declarations))]
fn declarators(alloc: Global, parts: &[Syntax]) -> Result<Vec<Declared>, BuildError>
    ensures ok { IfOk result (λ all. (xs : SpecifierTrees) → declarators_so xs no_declarators (parts_of parts.now) ≡ Some (declaration_with xs (declarators_onto no_declarators all.items))) }
    ensures err { IfErr result (λ e. e ≢ BuildError.NoMemory → (xs : SpecifierTrees) → declarators_so xs no_declarators (parts_of parts.now) ≡ None) }
{
    let mut all = Vec::new(alloc);
    let mut left = parts;
    loop {
        let OneDeclared { value, mark, rest } = one_declared(alloc, left)?;
        all.push(Box::into_inner(value))?;
        if is(Mark::Semicolon, mark) {
            let Next::End = split(rest) else {
                return Err(BuildError::Misfit);
            };
            return Ok(all);
        }
        if !is(Mark::Comma, mark) {
            return Err(BuildError::Misfit);
        }
        left = rest;
    }
}

/// Where no declarator stands: the semicolon, which is the last part.
fn no_declarator(alloc: Global, token: Token, parts: &[Syntax]) -> Result<Vec<Declared>, BuildError>
    ensures ok { IfOk result (λ all. (xs : SpecifierTrees) → declared_so xs (leaf token.kind token.place ∷ parts_of parts.now) ≡ Some (declaration_with xs (declarators_onto no_declarators all.items))) }
    ensures err { IfErr result (λ e. e ≢ BuildError.NoMemory → (xs : SpecifierTrees) → declared_so xs (leaf token.kind token.place ∷ parts_of parts.now) ≡ None) }
{
    if !is(Mark::Semicolon, token.kind) {
        return Err(BuildError::Misfit);
    }
    let Next::End = split(parts) else {
        return Err(BuildError::Misfit);
    };
    Ok(Vec::new(alloc))
}

/// The declarators of a declaration, if there are any, and the semicolon.
#[cycle(build)]
fn declarator_list(alloc: Global, parts: &[Syntax]) -> Result<Vec<Declared>, BuildError>
    ensures ok { IfOk result (λ all. (xs : SpecifierTrees) → declared_so xs (parts_of parts.now) ≡ Some (declaration_with xs (declarators_onto no_declarators all.items))) }
    ensures err { IfErr result (λ e. e ≢ BuildError.NoMemory → (xs : SpecifierTrees) → declared_so xs (parts_of parts.now) ≡ None) }
{
    match split(parts) {
        Next::Leaf(token, last) => {
            let all = no_declarator(alloc, token, last)?;
            Ok(all)
        }
        Next::Node(_, _) => match declarators(alloc, parts) {
            Ok(all) => Ok(all),
            Err(fault) => Err(fault),
        },
        Next::End => Err(BuildError::Misfit),
    }
}

/// A declaration, behind its specifiers.
#[cycle(build)]
pub fn declared(
    alloc: Global,
    specifiers: Specifiers,
    parts: &[Syntax],
) -> Result<Box<Declaration>, BuildError>
    ensures ok { IfOk result (λ d. declared_so (specifiers_tree specifiers) (parts_of parts.now) ≡ Some (declaration_tree d.value)) }
    ensures err { IfErr result (λ e. e ≢ BuildError.NoMemory → declared_so (specifiers_tree specifiers) (parts_of parts.now) ≡ None) }
{
    let declarators = declarator_list(alloc, parts)?;
    let whole = Box::new(
        alloc,
        Declaration {
            specifiers,
            declarators,
        },
    )?;
    Ok(whole)
}

/// A declaration (C11 6.7).
#[cycle(build)]
pub fn declaration_of(alloc: Global, parts: &[Syntax]) -> Result<Box<Declaration>, BuildError>
    ensures ok { IfOk result (λ d. as_declaration (parts_of parts.now) ≡ Some (declaration_tree d.value)) }
    ensures err { IfErr result (λ e. e ≢ BuildError.NoMemory → as_declaration (parts_of parts.now) ≡ None) }
{
    let Front { specifiers, rest } = specifiers_of(alloc, parts)?;
    let whole = declared(alloc, specifiers, rest)?;
    Ok(whole)
}
