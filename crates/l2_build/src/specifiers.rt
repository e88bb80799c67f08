// The specifiers of declarations and types.
ghost use Rattle.std.specs.Prelude.{◌≡◌, ◌≢◌, ◌≤◌, ◌<◌, Bool, Option, cond, IfSome, IfOk, IfErr, None, Some};
ghost use Rattle.l2_syntax.specs.declared.token.TokenKind.TheVariants as kind;
ghost use Rattle.l2_tree.specs.Build.{heads as heads_so, add_specifier, add_enumerator, specifiers as specifiers_so, struct_tag as struct_so, struct_body as struct_body_so, members as members_so, enum_tag as enum_so, enum_body as enum_body_so, enumerators as enumerators_so, enumerator_value as enumerator_value_so, behind_enumerator as enumerated_so};
ghost use Rattle.l2_tree.specs.Trees.{SpecifierTrees, DeclarationTrees, EnumeratorTrees, no_declarations};
ghost use Rattle.l2_tree.specs.Units.{specifier_tree, specifiers_tree, declarations_onto, enumerator_tree, enumerators_tree};
ghost use Rattle.l2_build.specs.Parts.{parts_of, size_of};
ghost use Rattle.l2_build.specs.Types.{goes_on_with, goes_on_or};

use crate::declarations::declaration_of;
use crate::error::BuildError;
use crate::expressions::expr_of;
use crate::made::{enumeration, structure};
use crate::next::{Next, heads, split};
use crate::starts::simple_of;
use l2_networks::is;
use l2_reader::Syntax;
use l2_syntax::{Mark, Place, TokenKind};
use l2_tree::{Declaration, Enumerator, Enumerators, Specifier, Specifiers, Tag};
use std::alloc::Global;

/// One specifier, and the parts behind it.
#[derive(Drop)]
pub struct OneSpecifier<'a> {
    pub value: Box<Specifier>,
    pub rest: &'a [Syntax],
}

/// The members of a struct, and the parts behind the brace.
#[derive(Drop)]
struct MemberList<'a> {
    all: Vec<Declaration>,
    rest: &'a [Syntax],
}

/// One enumerator, and the parts behind it.
#[derive(Drop)]
struct OneEnumerator<'a> {
    value: Box<Enumerator>,
    rest: &'a [Syntax],
}

/// The enumerators of an enum, whether a comma stands behind the last, and the parts behind the brace.
#[derive(Drop)]
struct Enumerated<'a> {
    all: Enumerators,
    comma: bool,
    rest: &'a [Syntax],
}

/// Specifiers, and the parts behind them.
#[derive(Drop)]
pub struct Front<'a> {
    pub specifiers: Specifiers,
    pub rest: &'a [Syntax],
}

/// The members of a struct, behind its brace.
#[cycle(build)]
#[tactic(auto, using(l2_tree::proofs::Declarations::declarations))]
fn members<'a>(alloc: Global, parts: &'a [Syntax]) -> Result<MemberList<'a>, BuildError>
    ensures ok { IfOk result (λ r. (f : DeclarationTrees → SpecifierTrees) → members_so f no_declarations (parts_of parts.now) ≡ specifiers_so (Some (f (declarations_onto no_declarations r.all.items))) (parts_of r.rest.now)) }
    ensures less { IfOk result (λ r. size_of r.rest.now ≤ size_of parts.now) }
    ensures err { IfErr result (λ e. e ≢ BuildError.NoMemory → (f : DeclarationTrees → SpecifierTrees) → members_so f no_declarations (parts_of parts.now) ≡ None) }
{
    let mut all = Vec::new(alloc);
    let mut left = parts;
    loop {
        match split(left) {
            Next::Node(inner, rest) => {
                let member = declaration_of(alloc, inner)?;
                all.push(Box::into_inner(member))?;
                left = rest;
            }
            Next::Leaf(close, rest) => {
                if !is(Mark::CloseBrace, close.kind) {
                    return Err(BuildError::Misfit);
                }
                return Ok(MemberList { all, rest });
            }
            Next::End => return Err(BuildError::Misfit),
        }
    }
}

/// A struct with its members, from the brace on.
#[cycle(build)]
fn struct_body<'a>(
    alloc: Global,
    place: Place,
    tag: Option<Tag>,
    parts: &'a [Syntax],
) -> Result<OneSpecifier<'a>, BuildError>
    ensures ok { IfOk result (λ r. (xs : Option SpecifierTrees) → struct_body_so xs place tag (parts_of parts.now) ≡ goes_on_with xs r) }
    ensures less { IfOk result (λ r. size_of r.rest.now ≤ size_of parts.now) }
    ensures err { IfErr result (λ e. e ≢ BuildError.NoMemory → (xs : Option SpecifierTrees) → struct_body_so xs place tag (parts_of parts.now) ≡ None) }
{
    let Next::Leaf(brace, behind) = split(parts) else {
        return Err(BuildError::Misfit);
    };
    let MemberList { all, rest } = members(alloc, behind)?;
    let value = structure(alloc, place, tag, brace.place, all)?;
    Ok(OneSpecifier { value, rest })
}

/// Behind `struct`, where no brace stands.
#[cycle(build)]
fn struct_tag<'a>(
    alloc: Global,
    place: Place,
    parts: &'a [Syntax],
) -> Result<OneSpecifier<'a>, BuildError>
    ensures ok { IfOk result (λ r. (xs : Option SpecifierTrees) → struct_so xs place (parts_of parts.now) ≡ goes_on_with xs r) }
    ensures less { IfOk result (λ r. size_of r.rest.now ≤ size_of parts.now) }
    ensures err { IfErr result (λ e. e ≢ BuildError.NoMemory → (xs : Option SpecifierTrees) → struct_so xs place (parts_of parts.now) ≡ None) }
{
    let Next::Leaf(token, rest) = split(parts) else {
        return Err(BuildError::Misfit);
    };
    let TokenKind::Word(name) = token.kind else {
        return Err(BuildError::Misfit);
    };
    let tag = Tag {
        name,
        place: token.place,
    };
    if heads(Mark::OpenBrace, rest) {
        let one = struct_body(alloc, place, Some(tag), rest)?;
        return Ok(one);
    }
    let value = Box::new(alloc, Specifier::Struct(place, tag))?;
    Ok(OneSpecifier { value, rest })
}

/// The value of an enumerator, from its `=` on.
#[cycle(build)]
fn valued<'a>(
    alloc: Global,
    name: u32,
    place: Place,
    parts: &'a [Syntax],
) -> Result<OneEnumerator<'a>, BuildError>
    ensures ok { IfOk result (λ r. (f : EnumeratorTrees → Bool → SpecifierTrees) (es : Option EnumeratorTrees) → enumerator_value_so f es name place (parts_of parts.now) ≡ enumerated_so f (add_enumerator es (enumerator_tree r.value.value)) (parts_of r.rest.now)) }
    ensures less { IfOk result (λ r. size_of r.rest.now ≤ size_of parts.now) }
    ensures err { IfErr result (λ e. e ≢ BuildError.NoMemory → (f : EnumeratorTrees → Bool → SpecifierTrees) (es : Option EnumeratorTrees) → enumerator_value_so f es name place (parts_of parts.now) ≡ None) }
{
    let Next::Leaf(equal, behind) = split(parts) else {
        return Err(BuildError::Misfit);
    };
    let Next::Node(inner, rest) = split(behind) else {
        return Err(BuildError::Misfit);
    };
    let number = expr_of(alloc, inner)?;
    let value = Box::new(alloc, Enumerator::Valued(name, place, equal.place, number))?;
    Ok(OneEnumerator { value, rest })
}

/// An enumerator.
#[cycle(build)]
fn enumerator<'a>(alloc: Global, parts: &'a [Syntax]) -> Result<OneEnumerator<'a>, BuildError>
    ensures ok { IfOk result (λ r. (f : EnumeratorTrees → Bool → SpecifierTrees) (es : Option EnumeratorTrees) → enumerators_so f es (parts_of parts.now) ≡ enumerated_so f (add_enumerator es (enumerator_tree r.value.value)) (parts_of r.rest.now)) }
    ensures less { IfOk result (λ r. size_of r.rest.now < size_of parts.now) }
    ensures err { IfErr result (λ e. e ≢ BuildError.NoMemory → (f : EnumeratorTrees → Bool → SpecifierTrees) (es : Option EnumeratorTrees) → enumerators_so f es (parts_of parts.now) ≡ None) }
{
    let Next::Leaf(token, behind) = split(parts) else {
        return Err(BuildError::Misfit);
    };
    let TokenKind::Word(name) = token.kind else {
        return Err(BuildError::Misfit);
    };
    if !heads(Mark::Equal, behind) {
        let value = Box::new(alloc, Enumerator::Plain(name, token.place))?;
        return Ok(OneEnumerator {
            value,
            rest: behind,
        });
    }
    let one = valued(alloc, name, token.place, behind)?;
    Ok(one)
}

/// The enumerators of an enum, behind its brace.
#[cycle(build)]
#[tactic(auto, using(l2_tree::proofs::Declarations::declarations))]
fn enumerators<'a>(alloc: Global, parts: &'a [Syntax]) -> Result<Enumerated<'a>, BuildError>
    ensures ok { IfOk result (λ r. (f : EnumeratorTrees → Bool → SpecifierTrees) → enumerators_so f None (parts_of parts.now) ≡ specifiers_so (Some (f (enumerators_tree r.all) r.comma)) (parts_of r.rest.now)) }
    ensures less { IfOk result (λ r. size_of r.rest.now ≤ size_of parts.now) }
    ensures err { IfErr result (λ e. e ≢ BuildError.NoMemory → (f : EnumeratorTrees → Bool → SpecifierTrees) → enumerators_so f None (parts_of parts.now) ≡ None) }
{
    let OneEnumerator {
        value: first,
        rest: mut left,
    } = enumerator(alloc, parts)?;
    let mut others = Vec::new(alloc);
    loop {
        let Next::Leaf(mark, behind) = split(left) else {
            return Err(BuildError::Misfit);
        };
        if is(Mark::CloseBrace, mark.kind) {
            return Ok(Enumerated {
                all: Enumerators {
                    first,
                    rest: others,
                },
                comma: false,
                rest: behind,
            });
        }
        if !is(Mark::Comma, mark.kind) {
            return Err(BuildError::Misfit);
        }
        if heads(Mark::CloseBrace, behind) {
            let Next::Leaf(_, rest) = split(behind) else {
                return Err(BuildError::Misfit);
            };
            return Ok(Enumerated {
                all: Enumerators {
                    first,
                    rest: others,
                },
                comma: true,
                rest,
            });
        }
        let OneEnumerator { value, rest } = enumerator(alloc, behind)?;
        others.push(Box::into_inner(value))?;
        left = rest;
    }
}

/// An enum with its enumerators, from the brace on.
#[cycle(build)]
fn enum_body<'a>(
    alloc: Global,
    place: Place,
    tag: Option<Tag>,
    parts: &'a [Syntax],
) -> Result<OneSpecifier<'a>, BuildError>
    ensures ok { IfOk result (λ r. (xs : Option SpecifierTrees) → enum_body_so xs place tag (parts_of parts.now) ≡ goes_on_with xs r) }
    ensures less { IfOk result (λ r. size_of r.rest.now ≤ size_of parts.now) }
    ensures err { IfErr result (λ e. e ≢ BuildError.NoMemory → (xs : Option SpecifierTrees) → enum_body_so xs place tag (parts_of parts.now) ≡ None) }
{
    let Next::Leaf(brace, behind) = split(parts) else {
        return Err(BuildError::Misfit);
    };
    let Enumerated { all, comma, rest } = enumerators(alloc, behind)?;
    let value = enumeration(alloc, place, tag, brace.place, all, comma)?;
    Ok(OneSpecifier { value, rest })
}

/// Behind `enum`, where no brace stands.
#[cycle(build)]
fn enum_tag<'a>(
    alloc: Global,
    place: Place,
    parts: &'a [Syntax],
) -> Result<OneSpecifier<'a>, BuildError>
    ensures ok { IfOk result (λ r. (xs : Option SpecifierTrees) → enum_so xs place (parts_of parts.now) ≡ goes_on_with xs r) }
    ensures less { IfOk result (λ r. size_of r.rest.now ≤ size_of parts.now) }
    ensures err { IfErr result (λ e. e ≢ BuildError.NoMemory → (xs : Option SpecifierTrees) → enum_so xs place (parts_of parts.now) ≡ None) }
{
    let Next::Leaf(token, rest) = split(parts) else {
        return Err(BuildError::Misfit);
    };
    let TokenKind::Word(name) = token.kind else {
        return Err(BuildError::Misfit);
    };
    let tag = Tag {
        name,
        place: token.place,
    };
    if heads(Mark::OpenBrace, rest) {
        let one = enum_body(alloc, place, Some(tag), rest)?;
        return Ok(one);
    }
    let value = Box::new(alloc, Specifier::Enum(place, tag))?;
    Ok(OneSpecifier { value, rest })
}

/// Behind `struct`.
#[cycle(build)]
fn struct_of<'a>(
    alloc: Global,
    place: Place,
    parts: &'a [Syntax],
) -> Result<OneSpecifier<'a>, BuildError>
    ensures ok { IfOk result (λ r. (xs : Option SpecifierTrees) → cond (heads_so Mark.OpenBrace (parts_of parts.now)) (struct_body_so xs place None (parts_of parts.now)) (struct_so xs place (parts_of parts.now)) ≡ goes_on_with xs r) }
    ensures less { IfOk result (λ r. size_of r.rest.now ≤ size_of parts.now) }
    ensures err { IfErr result (λ e. e ≢ BuildError.NoMemory → (xs : Option SpecifierTrees) → cond (heads_so Mark.OpenBrace (parts_of parts.now)) (struct_body_so xs place None (parts_of parts.now)) (struct_so xs place (parts_of parts.now)) ≡ None) }
{
    if heads(Mark::OpenBrace, parts) {
        let one = struct_body(alloc, place, None, parts)?;
        Ok(one)
    } else {
        let one = struct_tag(alloc, place, parts)?;
        Ok(one)
    }
}

/// Behind `enum`.
#[cycle(build)]
fn enum_of<'a>(
    alloc: Global,
    place: Place,
    parts: &'a [Syntax],
) -> Result<OneSpecifier<'a>, BuildError>
    ensures ok { IfOk result (λ r. (xs : Option SpecifierTrees) → cond (heads_so Mark.OpenBrace (parts_of parts.now)) (enum_body_so xs place None (parts_of parts.now)) (enum_so xs place (parts_of parts.now)) ≡ goes_on_with xs r) }
    ensures less { IfOk result (λ r. size_of r.rest.now ≤ size_of parts.now) }
    ensures err { IfErr result (λ e. e ≢ BuildError.NoMemory → (xs : Option SpecifierTrees) → cond (heads_so Mark.OpenBrace (parts_of parts.now)) (enum_body_so xs place None (parts_of parts.now)) (enum_so xs place (parts_of parts.now)) ≡ None) }
{
    if heads(Mark::OpenBrace, parts) {
        let one = enum_body(alloc, place, None, parts)?;
        Ok(one)
    } else {
        let one = enum_tag(alloc, place, parts)?;
        Ok(one)
    }
}

/// The next specifier, where one stands next.
#[cycle(build)]
fn specifier<'a>(alloc: Global, parts: &'a [Syntax]) -> Result<Option<OneSpecifier<'a>>, BuildError>
    ensures ok { IfOk result (λ o. (xs : Option SpecifierTrees) → specifiers_so xs (parts_of parts.now) ≡ goes_on_or xs o (parts_of parts.now)) }
    ensures less { IfOk result (λ o. IfSome o (λ r. size_of r.rest.now < size_of parts.now)) }
    ensures err { IfErr result (λ e. e ≢ BuildError.NoMemory → (xs : Option SpecifierTrees) → specifiers_so xs (parts_of parts.now) ≡ None) }
{
    let Next::Leaf(token, rest) = split(parts) else {
        return Ok(None);
    };
    if let Some(simple) = simple_of(token.kind, token.place) {
        let value = Box::new(alloc, simple)?;
        return Ok(Some(OneSpecifier { value, rest }));
    }
    if is(Mark::Struct, token.kind) {
        let one = struct_of(alloc, token.place, rest)?;
        return Ok(Some(one));
    }
    if is(Mark::Enum, token.kind) {
        let one = enum_of(alloc, token.place, rest)?;
        return Ok(Some(one));
    }
    Ok(None)
}

/// All specifiers with which the parts begin: one at least.
#[cycle(build)]
#[tactic(auto, using(l2_tree::proofs::Declarations::declarations))]
pub fn specifiers_of<'a>(alloc: Global, parts: &'a [Syntax]) -> Result<Front<'a>, BuildError>
    ensures ok { IfOk result (λ r. specifiers_so None (parts_of parts.now) ≡ Some (specifiers_tree r.specifiers, parts_of r.rest.now)) }
    ensures less { IfOk result (λ r. size_of r.rest.now ≤ size_of parts.now) }
    ensures err { IfErr result (λ e. e ≢ BuildError.NoMemory → specifiers_so None (parts_of parts.now) ≡ None) }
{
    let Some(one) = specifier(alloc, parts)? else {
        return Err(BuildError::Misfit);
    };
    let OneSpecifier {
        value: first,
        rest: mut left,
    } = one;
    let mut others = Vec::new(alloc);
    loop {
        let Some(one) = specifier(alloc, left)? else {
            return Ok(Front {
                specifiers: Specifiers {
                    first,
                    rest: others,
                },
                rest: left,
            });
        };
        let OneSpecifier { value, rest } = one;
        others.push(Box::into_inner(value))?;
        left = rest;
    }
}
