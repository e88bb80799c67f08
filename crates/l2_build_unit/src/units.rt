// The externals of a text.
ghost use Rattle.std.specs.Prelude.{◌≡◌, ◌≢◌, ◌∷◌, map, IfOk, IfErr, None, Some};
ghost use Rattle.l2_tree.specs.Build.{node, built, declarator_of as as_declarator, items as items_so, external_of as as_external, external_behind as external_so, declared as declared_so, and_then, unit_of as as_unit};
ghost use Rattle.l2_tree.specs.Trees.{Global as global_tree, Function as function_tree, no_stmts};
ghost use Rattle.l2_tree.specs.Units.{external_tree, specifiers_tree};
ghost use Rattle.l2_build.specs.Parts.{parts_of};

use crate::starts::is_end;
use crate::statements::items;
use l2_build::{
    BuildError, Front, Next, declaration_of, declarator_of, declared, specifiers_of, split,
};
use l2_networks::is;
use l2_reader::Syntax;
use l2_syntax::{Mark, Place};
use l2_tree::{External, Specifiers};
use std::alloc::Global;

/// A declaration at file scope, behind its specifiers.
fn global_declaration(
    alloc: Global,
    specifiers: Specifiers,
    parts: &[Syntax],
) -> Result<Box<External>, BuildError>
    ensures ok { IfOk result (λ x. and_then (declared_so (specifiers_tree specifiers) (parts_of parts.now)) (λ d. Some (global_tree d)) ≡ Some (external_tree x.value)) }
    ensures err { IfErr result (λ e. e ≢ BuildError.NoMemory → and_then (declared_so (specifiers_tree specifiers) (parts_of parts.now)) (λ d. Some (global_tree d)) ≡ None) }
{
    let declaration = declared(alloc, specifiers, parts)?;
    let whole = Box::new(alloc, External::Declaration(Box::into_inner(declaration)))?;
    Ok(whole)
}

/// A function's definition, behind its brace.
fn function(
    alloc: Global,
    specifiers: Specifiers,
    inner: &[Syntax],
    brace: Place,
    body: &[Syntax],
) -> Result<Box<External>, BuildError>
    ensures ok { IfOk result (λ x. and_then (as_declarator (parts_of inner.now)) (λ d. and_then (items_so no_stmts (parts_of body.now)) (λ ss. Some (function_tree (specifiers_tree specifiers) d brace ss))) ≡ Some (external_tree x.value)) }
    ensures err { IfErr result (λ e. e ≢ BuildError.NoMemory → and_then (as_declarator (parts_of inner.now)) (λ d. and_then (items_so no_stmts (parts_of body.now)) (λ ss. Some (function_tree (specifiers_tree specifiers) d brace ss))) ≡ None) }
{
    let declarator = declarator_of(alloc, inner)?;
    let all = items(alloc, body)?;
    let whole = Box::new(
        alloc,
        External::Function(specifiers, Box::into_inner(declarator), brace, all),
    )?;
    Ok(whole)
}

/// A function's definition or a declaration, where a declarator stands behind the specifiers.
fn defined_or(
    alloc: Global,
    specifiers: Specifiers,
    inner: &[Syntax],
    behind: &[Syntax],
    parts: &[Syntax],
) -> Result<Box<External>, BuildError>
    requires { parts_of parts.now ≡ node (built (parts_of inner.now)) ∷ parts_of behind.now }
    ensures ok { IfOk result (λ x. external_so (specifiers_tree specifiers) (parts_of parts.now) ≡ Some (external_tree x.value)) }
    ensures err { IfErr result (λ e. e ≢ BuildError.NoMemory → external_so (specifiers_tree specifiers) (parts_of parts.now) ≡ None) }
{
    match split(behind) {
        Next::Leaf(brace, body) => {
            if is(Mark::OpenBrace, brace.kind) {
                let whole = function(alloc, specifiers, inner, brace.place, body)?;
                return Ok(whole);
            }
            let whole = global_declaration(alloc, specifiers, parts)?;
            Ok(whole)
        }
        Next::Node(_, _) | Next::End => {
            let whole = global_declaration(alloc, specifiers, parts)?;
            Ok(whole)
        }
    }
}

/// A function's definition or a declaration, behind its specifiers.
fn behind_specifiers(
    alloc: Global,
    specifiers: Specifiers,
    parts: &[Syntax],
) -> Result<Box<External>, BuildError>
    ensures ok { IfOk result (λ x. external_so (specifiers_tree specifiers) (parts_of parts.now) ≡ Some (external_tree x.value)) }
    ensures err { IfErr result (λ e. e ≢ BuildError.NoMemory → external_so (specifiers_tree specifiers) (parts_of parts.now) ≡ None) }
{
    match split(parts) {
        Next::Node(inner, behind) => {
            let whole = defined_or(alloc, specifiers, inner, behind, parts)?;
            Ok(whole)
        }
        Next::Leaf(_, _) | Next::End => {
            let whole = global_declaration(alloc, specifiers, parts)?;
            Ok(whole)
        }
    }
}

/// A part of a text at file scope (C11 6.9), from all parts of its construct. `Misfit` where they are those of none.
pub fn external_of(alloc: Global, parts: &[Syntax]) -> Result<Box<External>, BuildError>
    ensures ok { IfOk result (λ x. as_external (parts_of parts.now) ≡ Some (external_tree x.value)) }
    ensures err { IfErr result (λ e. e ≢ BuildError.NoMemory → as_external (parts_of parts.now) ≡ None) }
{
    let Next::Leaf(token, rest) = split(parts) else {
        return Err(BuildError::Misfit);
    };
    if is(Mark::Semicolon, token.kind) {
        let Next::End = split(rest) else {
            return Err(BuildError::Misfit);
        };
        let whole = Box::new(alloc, External::Empty)?;
        return Ok(whole);
    }
    if is(Mark::Typedef, token.kind) {
        let declaration = declaration_of(alloc, rest)?;
        let whole = Box::new(
            alloc,
            External::Typedef(token.place, Box::into_inner(declaration)),
        )?;
        return Ok(whole);
    }
    let Front { specifiers, rest } = specifiers_of(alloc, parts)?;
    let whole = behind_specifiers(alloc, specifiers, rest)?;
    Ok(whole)
}

/// The externals of a text, from all parts of it, the last of which is its end. `Misfit` where they are those of none.
#[tactic(auto, using(crate::proofs::Grown::grown))]
pub fn unit_of(alloc: Global, parts: &[Syntax]) -> Result<Vec<External>, BuildError>
    ensures ok { IfOk result (λ all. as_unit (parts_of parts.now) ≡ Some (map external_tree all.items)) }
    ensures err { IfErr result (λ e. e ≢ BuildError.NoMemory → as_unit (parts_of parts.now) ≡ None) }
{
    let mut all = Vec::new(alloc);
    let mut left = parts;
    loop {
        match split(left) {
            Next::Node(inner, rest) => {
                let external = external_of(alloc, inner)?;
                all.push(Box::into_inner(external))?;
                left = rest;
            }
            Next::Leaf(end, rest) => {
                if !is_end(end.kind) {
                    return Err(BuildError::Misfit);
                }
                let Next::End = split(rest) else {
                    return Err(BuildError::Misfit);
                };
                return Ok(all);
            }
            Next::End => return Err(BuildError::Misfit),
        }
    }
}
