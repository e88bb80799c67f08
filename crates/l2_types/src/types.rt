// Types, and what the usual conversions make of them (C11 6.2.5, 6.3.1).
ghost use Rattle.std.specs.Prelude.{◌≡◌};
ghost use Rattle.l2_types.specs.Types.{type_of_scalar, promoted, rank, unsigned_form, mixed, higher, common};

use l2_bits::Ty;
use l2_syntax::Scalar;

/// A type. `char` and `signed char` are one.
#[derive(Clone, Copy, Debug, PartialEq, Eq)]
pub enum CType {
    Void,
    Integer(Scalar),
}

/// The width and the sign of an integer type.
pub fn type_of_scalar(s: Scalar) -> Ty
    ensures { result ≡ type_of_scalar s }
{
    match s {
        Scalar::Bool => Ty::BOOL,
        Scalar::Char => Ty::CHAR,
        Scalar::UChar => Ty::UCHAR,
        Scalar::Short => Ty::SHORT,
        Scalar::UShort => Ty::USHORT,
        Scalar::Int => Ty::INT,
        Scalar::UInt => Ty::UINT,
        Scalar::Long | Scalar::LongLong => Ty::LONG,
        Scalar::ULong | Scalar::ULongLong => Ty::ULONG,
    }
}

/// What a type becomes as an operand: one that is narrower than `int` becomes `int`.
pub fn promoted(s: Scalar) -> Scalar
    ensures { result ≡ promoted s }
{
    if type_of_scalar(s).width < 32 {
        Scalar::Int
    } else {
        s
    }
}

/// `int`, `long` and `long long` in their order, those without a sign like those with one.
fn rank(s: Scalar) -> u8
    ensures { result ≡ rank s }
{
    match s {
        Scalar::Long | Scalar::ULong => 2,
        Scalar::LongLong | Scalar::ULongLong => 3,
        _ => 1,
    }
}

/// The type without a sign of the same rank.
fn unsigned_form(s: Scalar) -> Scalar
    ensures { result ≡ unsigned_form s }
{
    match s {
        Scalar::Int => Scalar::UInt,
        Scalar::Long => Scalar::ULong,
        Scalar::LongLong => Scalar::ULongLong,
        _ => s,
    }
}

/// The common type of one without a sign and one with a sign.
fn mixed(u: Scalar, i: Scalar) -> Scalar
    ensures { result ≡ mixed u i }
{
    if rank(i) <= rank(u) {
        u
    } else if type_of_scalar(u).width < type_of_scalar(i).width {
        i
    } else {
        unsigned_form(i)
    }
}

/// The type in which an operator computes (C11 6.3.1.8).
pub fn common(s: Scalar, t: Scalar) -> Scalar
    ensures { result ≡ common s t }
{
    let a = promoted(s);
    let b = promoted(t);
    if type_of_scalar(a).signed {
        if type_of_scalar(b).signed {
            higher(a, b)
        } else {
            mixed(b, a)
        }
    } else if type_of_scalar(b).signed {
        mixed(a, b)
    } else {
        higher(a, b)
    }
}

/// The one of the higher rank.
fn higher(a: Scalar, b: Scalar) -> Scalar
    ensures { result ≡ higher a b }
{
    if rank(a) < rank(b) { b } else { a }
}
