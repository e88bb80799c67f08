// Operators, and other words of the whole grammar that the small form has.
ghost use Rattle.std.specs.Prelude.{◌≡◌};
ghost use Rattle.l2_small.specs.SmallForm.{small_unary, small_binary, is_int_constant};

use l2_runs::{BinaryOperator, UnaryOperator};
use l2_syntax::Scalar;
use l2_tree::{BinaryOperator as AnyBinary, UnaryOperator as AnyUnary};

pub fn small_unary(operator: AnyUnary) -> Option<UnaryOperator>
    ensures { result ≡ small_unary operator }
{
    match operator {
        AnyUnary::Negate => Some(UnaryOperator::Negate),
        AnyUnary::Not => Some(UnaryOperator::Not),
        AnyUnary::Address | AnyUnary::Dereference | AnyUnary::Plus | AnyUnary::Complement => None,
    }
}

pub fn small_binary(operator: AnyBinary) -> Option<BinaryOperator>
    ensures { result ≡ small_binary operator }
{
    match operator {
        AnyBinary::Multiply => Some(BinaryOperator::Multiply),
        AnyBinary::Add => Some(BinaryOperator::Add),
        AnyBinary::Subtract => Some(BinaryOperator::Subtract),
        AnyBinary::Less => Some(BinaryOperator::Less),
        AnyBinary::LessEqual => Some(BinaryOperator::LessEqual),
        AnyBinary::Greater => Some(BinaryOperator::Greater),
        AnyBinary::GreaterEqual => Some(BinaryOperator::GreaterEqual),
        AnyBinary::Equal => Some(BinaryOperator::Equal),
        AnyBinary::NotEqual => Some(BinaryOperator::NotEqual),
        AnyBinary::Divide | AnyBinary::Remainder | AnyBinary::ShiftLeft | AnyBinary::ShiftRight =>
            None,
        AnyBinary::BitAnd | AnyBinary::BitXor | AnyBinary::BitOr | AnyBinary::And | AnyBinary::Or =>
            None,
    }
}

/// Whether a constant has the type `int`.
pub fn is_int_constant(scalar: Scalar) -> bool
    ensures { result ≡ is_int_constant scalar }
{
    match scalar {
        Scalar::Int => true,
        Scalar::Bool | Scalar::Char | Scalar::UChar | Scalar::Short | Scalar::UShort => false,
        Scalar::UInt | Scalar::Long | Scalar::ULong | Scalar::LongLong | Scalar::ULongLong => false,
    }
}
