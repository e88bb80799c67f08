// Typed trees, made of their parts.
ghost use Rattle.std.specs.Prelude.{◌≡◌, pos, IfOk};
ghost use Rattle.l2_types.specs.Trees.{typed_tree};
ghost use Rattle.l2_types.specs.declared.types.CType.{CType};
ghost use Rattle.l2_types.specs.Meant.{Value, meant_tree, same_type, converted, size_of};

use crate::error::CheckError;
use crate::meant::Meant;
use crate::typed::Typed;
use crate::types::{CType, type_of_scalar};
use l2_bits::Ty;
use l2_syntax::Scalar;
use std::alloc::Global;

/// A value of an integer type.
pub fn integer(alloc: Global, a: Scalar, e: Typed) -> Result<Meant, CheckError>
    ensures ok { IfOk result (λ m. meant_tree m ≡ Value (CType.Integer a) (typed_tree e)) }
{
    Ok(Meant::Value(CType::Integer(a), Box::new(alloc, e)?))
}

fn same_type(t: Ty, u: Ty) -> bool
    ensures { result ≡ same_type t u }
{
    t.width == u.width && t.signed == u.signed
}

/// A conversion, where the type changes.
pub fn converted(
    alloc: Global,
    from: Scalar,
    to: Scalar,
    e: Box<Typed>,
) -> Result<Box<Typed>, CheckError>
    ensures ok { IfOk result (λ r. typed_tree r.value ≡ converted from to (typed_tree e.value)) }
{
    if same_type(type_of_scalar(from), type_of_scalar(to)) {
        return Ok(e);
    }
    Ok(Box::new(alloc, Typed::Convert(type_of_scalar(to), e))?)
}

/// The size of a type in bytes.
pub fn size_of(a: Scalar) -> i128
    ensures { result ≡ pos (size_of a) }
{
    let width = type_of_scalar(a).width;
    if width < 8 { 1 } else { i128::from(width / 8) }
}
