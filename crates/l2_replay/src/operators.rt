// Operators on numbers of a type, and when they overflow.
ghost use Rattle.std.specs.Prelude.{◌≡◌};
ghost use Rattle.l2_bits.specs.Values.{IsValue};
ghost use Rattle.l2_runs.specs.Operators.{unary, binary, unary_overflows, binary_overflows};
ghost use Rattle.l2_program.specs.Types.{is_computing, is_arithmetic, given};

use l2_bits::{Op, Ty, add, mul, overflows, sub};
use l2_runs::{BinaryOperator, UnaryOperator};

#[tactic(auto, using(crate::proofs::Steps::operators))]
pub fn unary(op: UnaryOperator, ty: Ty, a: i128) -> i128
    requires { IsValue ty a }
    ensures is { result ≡ unary op ty a }
    ensures value { IsValue (given (is_computing op) ty) result }
{
    match op {
        UnaryOperator::Negate => sub(ty, 0, a),
        UnaryOperator::Not => i128::from(a == 0),
    }
}

#[tactic(auto, using(crate::proofs::Steps::operators))]
pub fn unary_overflows(op: UnaryOperator, ty: Ty, a: i128) -> bool
    requires { IsValue ty a }
    ensures { result ≡ unary_overflows op ty a }
{
    match op {
        UnaryOperator::Negate => overflows(Op::Sub, ty, 0, a),
        UnaryOperator::Not => false,
    }
}

#[tactic(auto, using(crate::proofs::Steps::operators))]
pub fn binary(op: BinaryOperator, ty: Ty, a: i128, b: i128) -> i128
    requires left { IsValue ty a }
    requires right { IsValue ty b }
    ensures is { result ≡ binary op ty a b }
    ensures value { IsValue (given (is_arithmetic op) ty) result }
{
    match op {
        BinaryOperator::Multiply => mul(ty, a, b),
        BinaryOperator::Add => add(ty, a, b),
        BinaryOperator::Subtract => sub(ty, a, b),
        BinaryOperator::Less => i128::from(a < b),
        BinaryOperator::LessEqual => i128::from(a <= b),
        BinaryOperator::Greater => i128::from(a > b),
        BinaryOperator::GreaterEqual => i128::from(a >= b),
        BinaryOperator::Equal => i128::from(a == b),
        BinaryOperator::NotEqual => i128::from(a != b),
    }
}

#[tactic(auto, using(crate::proofs::Steps::operators))]
pub fn binary_overflows(op: BinaryOperator, ty: Ty, a: i128, b: i128) -> bool
    requires left { IsValue ty a }
    requires right { IsValue ty b }
    ensures { result ≡ binary_overflows op ty a b }
{
    match op {
        BinaryOperator::Multiply => overflows(Op::Mul, ty, a, b),
        BinaryOperator::Add => overflows(Op::Add, ty, a, b),
        BinaryOperator::Subtract => overflows(Op::Sub, ty, a, b),
        BinaryOperator::Less
        | BinaryOperator::LessEqual
        | BinaryOperator::Greater
        | BinaryOperator::GreaterEqual
        | BinaryOperator::Equal
        | BinaryOperator::NotEqual => false,
    }
}
