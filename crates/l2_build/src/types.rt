// Parameters, and the names of types.
ghost use Rattle.std.specs.Prelude.{◌≡◌, ◌≢◌, IfOk, IfErr, None, Some};
ghost use Rattle.l2_tree.specs.Build.{parameter_of as as_parameter, type_name_of as as_type_name, brackets as brackets_so};
ghost use Rattle.l2_tree.specs.Units.{parameter_tree};
ghost use Rattle.l2_build.specs.Parts.{parts_of};
ghost use Rattle.l2_build.specs.Types.{type_name_tree};

use crate::declarators::declarator_of;
use crate::error::BuildError;
use crate::made::{bare, with_declarator};
use crate::next::{Next, specifies, split};
use crate::specifiers::{Front, specifiers_of};
use l2_networks::is;
use l2_reader::Syntax;
use l2_syntax::{Mark, Place};
use l2_tree::Parameter;
use std::alloc::Global;

/// The name of a type in parentheses, with the place of the first.
#[derive(Drop)]
pub struct TypeName {
    pub place: Place,
    pub named: Box<Parameter>,
}

/// A parameter or the name of a type (C11 6.7.6 and 6.7.7).
#[cycle(build)]
pub fn parameter_of(alloc: Global, parts: &[Syntax]) -> Result<Box<Parameter>, BuildError>
    ensures ok { IfOk result (λ t. as_parameter (parts_of parts.now) ≡ Some (parameter_tree t.value)) }
    ensures err { IfErr result (λ e. e ≢ BuildError.NoMemory → as_parameter (parts_of parts.now) ≡ None) }
{
    let Front { specifiers, rest } = specifiers_of(alloc, parts)?;
    match split(rest) {
        Next::End => {
            let whole = bare(alloc, specifiers)?;
            Ok(whole)
        },
        Next::Leaf(_, _) => Err(BuildError::Misfit),
        Next::Node(inner, last) => {
            let Next::End = split(last) else {
                return Err(BuildError::Misfit);
            };
            let declarator = declarator_of(alloc, inner)?;
            let whole = with_declarator(alloc, specifiers, Box::into_inner(declarator))?;
            Ok(whole)
        }
    }
}

/// Whether these parts are the name of a type in parentheses.
pub fn brackets(parts: &[Syntax]) -> bool
    ensures { result ≡ brackets_so (parts_of parts.now) }
{
    let Next::Leaf(open, behind) = split(parts) else {
        return false;
    };
    let Next::Node(inner, further) = split(behind) else {
        return false;
    };
    let Next::Leaf(close, last) = split(further) else {
        return false;
    };
    let Next::End = split(last) else {
        return false;
    };
    is(Mark::OpenParenthesis, open.kind)
        && is(Mark::CloseParenthesis, close.kind)
        && specifies(inner)
}

/// The name of a type in parentheses.
#[cycle(build)]
pub fn type_name_of(alloc: Global, parts: &[Syntax]) -> Result<TypeName, BuildError>
    ensures ok { IfOk result (λ t. as_type_name (parts_of parts.now) ≡ Some (type_name_tree t)) }
    ensures err { IfErr result (λ e. e ≢ BuildError.NoMemory → as_type_name (parts_of parts.now) ≡ None) }
{
    let Next::Leaf(open, behind) = split(parts) else {
        return Err(BuildError::Misfit);
    };
    let Next::Node(inner, _) = split(behind) else {
        return Err(BuildError::Misfit);
    };
    let named = parameter_of(alloc, inner)?;
    Ok(TypeName {
        place: open.place,
        named,
    })
}
