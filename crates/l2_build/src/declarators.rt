// Declarators.
ghost use Rattle.std.specs.Prelude.{◌≡◌, ◌≢◌, ◌≤◌, ◌∷◌, [], IfOk, IfErr, None, Some};
ghost use Rattle.l2_tree.specs.Build.{leaf, node, built, next_parameter as next_parameter_so, pointers as pointers_so, core as core_so, group as group_so, suffixes as suffixes_so, array as array_so, parameters as parameters_so, behind_parameter as behind_parameter_so, declarator_of as as_declarator};
ghost use Rattle.l2_tree.specs.Trees.{SuffixTrees, ParameterTrees, no_suffixes, and_suffix, no_parameters, and_parameter};
ghost use Rattle.l2_tree.specs.Units.{declarator_tree, core_tree, suffix_tree, suffixes_onto, parameter_tree, parameters_onto};
ghost use Rattle.l2_syntax.specs.declared.place.Place.{Place as At};
ghost use Rattle.l2_build.specs.Parts.{parts_of, size_of};

use crate::error::BuildError;
use crate::expressions::expr_of;
use crate::made::{grouped, parameter_list};
use crate::next::{Next, heads, specifies, split};
use crate::starts::name_of;
use crate::types::parameter_of;
use l2_networks::is;
use l2_reader::Syntax;
use l2_syntax::{Mark, Place, Token};
use l2_tree::{Core, Declarator, Parameter, Pointer, Suffix};
use std::alloc::Global;

/// Pointers, and the parts behind them.
#[derive(Drop)]
struct Pointers<'a> {
    all: Vec<Pointer>,
    rest: &'a [Syntax],
}

/// What a declarator is built round, and the parts behind it.
#[derive(Drop)]
struct Cored<'a> {
    core: Core,
    rest: &'a [Syntax],
}

/// A length or parameters, and the parts behind them.
#[derive(Drop)]
struct OneSuffix<'a> {
    value: Suffix,
    rest: &'a [Syntax],
}

/// A parameter, and the parts behind it.
#[derive(Drop)]
struct OneParameter<'a> {
    value: Box<Parameter>,
    rest: &'a [Syntax],
}

/// `*` and `* const`, as many as there are.
fn pointers_of<'a>(alloc: Global, parts: &'a [Syntax]) -> Result<Pointers<'a>, BuildError>
    ensures ok { IfOk result (λ r. pointers_so [] (parts_of parts.now) ≡ (r.all.items, parts_of r.rest.now)) }
    ensures less { IfOk result (λ r. size_of r.rest.now ≤ size_of parts.now) }
    ensures err { IfErr result (λ e. e ≡ BuildError.NoMemory) }
{
    let mut all = Vec::new(alloc);
    let mut left = parts;
    loop {
        let Next::Leaf(star, behind) = split(left) else {
            return Ok(Pointers { all, rest: left });
        };
        if !is(Mark::Star, star.kind) {
            return Ok(Pointers { all, rest: left });
        }
        if !heads(Mark::Const, behind) {
            all.push(Pointer::Plain(star.place))?;
            left = behind;
            continue;
        }
        let Next::Leaf(word, rest) = split(behind) else {
            return Ok(Pointers { all, rest: behind });
        };
        all.push(Pointer::Const(star.place, word.place))?;
        left = rest;
    }
}

/// `( declarator )`, behind the construct in it.
#[cycle(build)]
#[tactic(auto, using(l2_tree::proofs::Declarations::declarators))]
fn group<'a>(
    alloc: Global,
    place: Place,
    inner: &[Syntax],
    parts: &'a [Syntax],
) -> Result<Cored<'a>, BuildError>
    ensures ok { IfOk result (λ r. group_so place (built (parts_of inner.now)) (parts_of parts.now) ≡ Some (core_tree r.core, parts_of r.rest.now)) }
    ensures less { IfOk result (λ r. size_of r.rest.now ≤ size_of parts.now) }
    ensures err { IfErr result (λ e. e ≢ BuildError.NoMemory → group_so place (built (parts_of inner.now)) (parts_of parts.now) ≡ None) }
{
    let Next::Leaf(close, rest) = split(parts) else {
        return Err(BuildError::Misfit);
    };
    if !is(Mark::CloseParenthesis, close.kind) {
        return Err(BuildError::Misfit);
    }
    let declarator = declarator_of(alloc, inner)?;
    Ok(Cored {
        core: grouped(place, declarator),
        rest,
    })
}

/// What a declarator is built round: where neither a name nor a declarator in parentheses stands, nothing.
#[cycle(build)]
#[tactic(auto, using(crate::proofs::Cores::cores))]
fn core_of<'a>(alloc: Global, parts: &'a [Syntax]) -> Result<Cored<'a>, BuildError>
    ensures ok { IfOk result (λ r. core_so (parts_of parts.now) ≡ Some (core_tree r.core, parts_of r.rest.now)) }
    ensures less { IfOk result (λ r. size_of r.rest.now ≤ size_of parts.now) }
    ensures err { IfErr result (λ e. e ≢ BuildError.NoMemory → core_so (parts_of parts.now) ≡ None) }
{
    let absent = Cored {
        core: Core::Absent,
        rest: parts,
    };
    let Next::Leaf(token, behind) = split(parts) else {
        return Ok(absent);
    };
    if let Some(name) = name_of(token.kind) {
        return Ok(Cored {
            core: Core::Name(name, token.place),
            rest: behind,
        });
    }
    let Next::Node(inner, rest) = split(behind) else {
        return Ok(absent);
    };
    if is(Mark::OpenParenthesis, token.kind) && !specifies(inner) {
        let grouped = group(alloc, token.place, inner, rest)?;
        return Ok(grouped);
    }
    Ok(absent)
}

/// A length, behind its expression.
#[cycle(build)]
fn array_of<'a>(
    alloc: Global,
    place: Place,
    inner: &[Syntax],
    parts: &'a [Syntax],
) -> Result<OneSuffix<'a>, BuildError>
    ensures ok { IfOk result (λ r. (xs : SuffixTrees) → array_so xs place (node (built (parts_of inner.now)) ∷ parts_of parts.now) ≡ suffixes_so (and_suffix xs (suffix_tree r.value)) (parts_of r.rest.now)) }
    ensures less { IfOk result (λ r. size_of r.rest.now ≤ size_of parts.now) }
    ensures err { IfErr result (λ e. e ≢ BuildError.NoMemory → (xs : SuffixTrees) → array_so xs place (node (built (parts_of inner.now)) ∷ parts_of parts.now) ≡ None) }
{
    let Next::Leaf(close, rest) = split(parts) else {
        return Err(BuildError::Misfit);
    };
    if !is(Mark::CloseBracket, close.kind) {
        return Err(BuildError::Misfit);
    }
    let length = expr_of(alloc, inner)?;
    Ok(OneSuffix {
        value: Suffix::ArrayOf(place, length),
        rest,
    })
}

/// A length, behind its `[`.
#[cycle(build)]
fn array<'a>(alloc: Global, place: Place, parts: &'a [Syntax]) -> Result<OneSuffix<'a>, BuildError>
    ensures ok { IfOk result (λ r. (xs : SuffixTrees) → array_so xs place (parts_of parts.now) ≡ suffixes_so (and_suffix xs (suffix_tree r.value)) (parts_of r.rest.now)) }
    ensures less { IfOk result (λ r. size_of r.rest.now ≤ size_of parts.now) }
    ensures err { IfErr result (λ e. e ≢ BuildError.NoMemory → (xs : SuffixTrees) → array_so xs place (parts_of parts.now) ≡ None) }
{
    match split(parts) {
        Next::Leaf(close, rest) => {
            if !is(Mark::CloseBracket, close.kind) {
                return Err(BuildError::Misfit);
            }
            Ok(OneSuffix {
                value: Suffix::Array(place),
                rest,
            })
        }
        Next::Node(inner, behind) => {
            let one = array_of(alloc, place, inner, behind)?;
            Ok(one)
        }
        Next::End => Err(BuildError::Misfit),
    }
}

/// A further parameter, behind a comma.
#[cycle(build)]
fn next_parameter<'a>(alloc: Global, parts: &'a [Syntax]) -> Result<OneParameter<'a>, BuildError>
    ensures ok { IfOk result (λ r. (xs : SuffixTrees) (p : At) (ts : ParameterTrees) → next_parameter_so xs p ts (parts_of parts.now) ≡ behind_parameter_so xs p (and_parameter ts (parameter_tree r.value.value)) (parts_of r.rest.now)) }
    ensures less { IfOk result (λ r. size_of r.rest.now ≤ size_of parts.now) }
    ensures err { IfErr result (λ e. e ≢ BuildError.NoMemory → (xs : SuffixTrees) (p : At) (ts : ParameterTrees) → next_parameter_so xs p ts (parts_of parts.now) ≡ None) }
{
    let Next::Node(inner, rest) = split(parts) else {
        return Err(BuildError::Misfit);
    };
    let value = parameter_of(alloc, inner)?;
    Ok(OneParameter { value, rest })
}

/// Parameters, behind the first of them.
#[cycle(build)]
#[tactic(auto, using(l2_tree::proofs::Declarations::declarators))]
fn behind_parameter<'a>(
    alloc: Global,
    place: Place,
    first: Box<Parameter>,
    parts: &'a [Syntax],
) -> Result<OneSuffix<'a>, BuildError>
    ensures ok { IfOk result (λ r. (xs : SuffixTrees) → behind_parameter_so xs place (parameters_onto no_parameters (first.value ∷ [])) (parts_of parts.now) ≡ suffixes_so (and_suffix xs (suffix_tree r.value)) (parts_of r.rest.now)) }
    ensures less { IfOk result (λ r. size_of r.rest.now ≤ size_of parts.now) }
    ensures err { IfErr result (λ e. e ≢ BuildError.NoMemory → (xs : SuffixTrees) → behind_parameter_so xs place (parameters_onto no_parameters (first.value ∷ [])) (parts_of parts.now) ≡ None) }
{
    let mut all = Vec::new(alloc);
    all.push(Box::into_inner(first))?;
    let mut left = parts;
    loop {
        let Next::Leaf(mark, behind) = split(left) else {
            return Err(BuildError::Misfit);
        };
        if is(Mark::CloseParenthesis, mark.kind) {
            return Ok(OneSuffix {
                value: parameter_list(place, all),
                rest: behind,
            });
        }
        if !is(Mark::Comma, mark.kind) {
            return Err(BuildError::Misfit);
        }
        let OneParameter { value, rest } = next_parameter(alloc, behind)?;
        all.push(Box::into_inner(value))?;
        left = rest;
    }
}

/// Parameters, behind their `(`.
#[cycle(build)]
#[tactic(auto, using(l2_tree::proofs::Declarations::declarators))]
fn parameters<'a>(
    alloc: Global,
    place: Place,
    parts: &'a [Syntax],
) -> Result<OneSuffix<'a>, BuildError>
    ensures ok { IfOk result (λ r. (xs : SuffixTrees) → parameters_so xs place (parts_of parts.now) ≡ suffixes_so (and_suffix xs (suffix_tree r.value)) (parts_of r.rest.now)) }
    ensures less { IfOk result (λ r. size_of r.rest.now ≤ size_of parts.now) }
    ensures err { IfErr result (λ e. e ≢ BuildError.NoMemory → (xs : SuffixTrees) → parameters_so xs place (parts_of parts.now) ≡ None) }
{
    match split(parts) {
        Next::Leaf(close, rest) => {
            if !is(Mark::CloseParenthesis, close.kind) {
                return Err(BuildError::Misfit);
            }
            Ok(OneSuffix {
                value: parameter_list(place, Vec::new(alloc)),
                rest,
            })
        }
        Next::Node(inner, rest) => {
            let first = parameter_of(alloc, inner)?;
            let all = behind_parameter(alloc, place, first, rest)?;
            Ok(all)
        }
        Next::End => Err(BuildError::Misfit),
    }
}

/// A length or parameters, behind the bracket.
#[cycle(build)]
fn suffix<'a>(
    alloc: Global,
    bracket: Token,
    parts: &'a [Syntax],
) -> Result<OneSuffix<'a>, BuildError>
    ensures ok { IfOk result (λ r. (xs : SuffixTrees) → suffixes_so xs (leaf bracket.kind bracket.place ∷ parts_of parts.now) ≡ suffixes_so (and_suffix xs (suffix_tree r.value)) (parts_of r.rest.now)) }
    ensures less { IfOk result (λ r. size_of r.rest.now ≤ size_of parts.now) }
    ensures err { IfErr result (λ e. e ≢ BuildError.NoMemory → (xs : SuffixTrees) → suffixes_so xs (leaf bracket.kind bracket.place ∷ parts_of parts.now) ≡ None) }
{
    if is(Mark::OpenBracket, bracket.kind) {
        let one = array(alloc, bracket.place, parts)?;
        return Ok(one);
    }
    if !is(Mark::OpenParenthesis, bracket.kind) {
        return Err(BuildError::Misfit);
    }
    let one = parameters(alloc, bracket.place, parts)?;
    Ok(one)
}

/// Lengths and parameters, up to the end.
#[cycle(build)]
#[tactic(auto, using(l2_tree::proofs::Declarations::declarators))]
fn suffixes_of(alloc: Global, parts: &[Syntax]) -> Result<Vec<Suffix>, BuildError>
    ensures ok { IfOk result (λ all. suffixes_so no_suffixes (parts_of parts.now) ≡ Some (suffixes_onto no_suffixes all.items)) }
    ensures err { IfErr result (λ e. e ≢ BuildError.NoMemory → suffixes_so no_suffixes (parts_of parts.now) ≡ None) }
{
    let mut all = Vec::new(alloc);
    let mut left = parts;
    loop {
        match split(left) {
            Next::Leaf(bracket, behind) => {
                let OneSuffix { value, rest } = suffix(alloc, bracket, behind)?;
                all.push(value)?;
                left = rest;
            }
            Next::Node(_, _) => return Err(BuildError::Misfit),
            Next::End => return Ok(all),
        }
    }
}

/// A declarator (C11 6.7.6).
#[cycle(build)]
pub fn declarator_of(alloc: Global, parts: &[Syntax]) -> Result<Box<Declarator>, BuildError>
    ensures ok { IfOk result (λ d. as_declarator (parts_of parts.now) ≡ Some (declarator_tree d.value)) }
    ensures err { IfErr result (λ e. e ≢ BuildError.NoMemory → as_declarator (parts_of parts.now) ≡ None) }
{
    let Pointers {
        all: pointers,
        rest: behind,
    } = pointers_of(alloc, parts)?;
    let Cored { core, rest } = core_of(alloc, behind)?;
    let suffixes = suffixes_of(alloc, rest)?;
    let whole = Box::new(
        alloc,
        Declarator {
            pointers,
            core,
            suffixes,
        },
    )?;
    Ok(whole)
}
