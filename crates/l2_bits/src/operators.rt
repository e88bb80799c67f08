ghost use Rattle.std.specs.Prelude.{◌≡◌, ◌≢◌, ◌≤◌, ◌^◌, true, pos, ◌≤ℤ◌, ◌<ℤ◌, IfSome, unsigned_abs};
ghost use Rattle.l2_bits.specs.Values.{IsValue};
ghost use Rattle.l2_bits.specs.Operators.{add, sub, mul, quotient, remainder, breaks_division, div, rem, breaks_shift, shl, shr, shifted_left, exact, shifts_negative, overflows, IsRightOperand, convert};

use crate::types::Ty;
use crate::values::{is_value, modulus, residue, wrap};

/// `a + b` (C11 6.5.6).
pub fn add(ty: Ty, a: i128, b: i128) -> i128
    requires left { IsValue ty a }
    requires right { IsValue ty b }
    ensures is { result ≡ add ty a b }
    ensures value { IsValue ty result }
{
    wrap(ty, a + b)
}

/// `a - b` (C11 6.5.6).
pub fn sub(ty: Ty, a: i128, b: i128) -> i128
    requires left { IsValue ty a }
    requires right { IsValue ty b }
    ensures is { result ≡ sub ty a b }
    ensures value { IsValue ty result }
{
    wrap(ty, a - b)
}

/// `a * b` (C11 6.5.5). The product of two values may pass an `i128`: it is taken of the residues.
pub fn mul(ty: Ty, a: i128, b: i128) -> i128
    requires left { IsValue ty a }
    requires right { IsValue ty b }
    ensures is { result ≡ mul ty a b }
    ensures value { IsValue ty result }
{
    let n = modulus(ty);
    let product = u128::from(residue(n, a)) * u128::from(residue(n, b));
    wrap(ty, (product % n) as i128)
}

/// The quotient truncated towards zero.
fn quotient(ty: Ty, a: i128, b: i128) -> i128
    requires left { IsValue ty a }
    requires right { IsValue ty b }
    requires divisor { b ≢ pos 0 }
    ensures { result ≡ quotient a b }
{
    a / b
}

/// Whether the divisor is 0 or the quotient isn't a value of the type.
#[tactic(auto, unfolding(crate::specs::Operators::breaks_division))]
fn breaks_division(ty: Ty, a: i128, b: i128) -> bool
    requires left { IsValue ty a }
    requires right { IsValue ty b }
    ensures { result ≡ breaks_division ty a b }
{
    b == 0 || !is_value(ty, quotient(ty, a, b))
}

/// `a / b` (C11 6.5.5): `None` where the divisor is 0 or the quotient isn't a value of the type.
#[tactic(auto, unfolding(crate::specs::Operators::div, crate::specs::Operators::breaks_division))]
pub fn div(ty: Ty, a: i128, b: i128) -> Option<i128>
    requires left { IsValue ty a }
    requires right { IsValue ty b }
    ensures is { result ≡ div ty a b }
    ensures value { IfSome result (IsValue ty) }
{
    if breaks_division(ty, a, b) {
        None
    } else {
        Some(quotient(ty, a, b))
    }
}

/// What the quotient leaves of `a`.
fn remainder(ty: Ty, a: i128, b: i128) -> i128
    requires left { IsValue ty a }
    requires right { IsValue ty b }
    requires divisor { b ≢ pos 0 }
    ensures is { result ≡ remainder a b }
    ensures value { IsValue ty result }
{
    a % b
}

/// `a % b` (C11 6.5.5): `None` where `div` is.
#[tactic(auto, unfolding(crate::specs::Operators::rem, crate::specs::Operators::breaks_division))]
pub fn rem(ty: Ty, a: i128, b: i128) -> Option<i128>
    requires left { IsValue ty a }
    requires right { IsValue ty b }
    ensures is { result ≡ rem ty a b }
    ensures value { IfSome result (IsValue ty) }
{
    if breaks_division(ty, a, b) {
        None
    } else {
        Some(remainder(ty, a, b))
    }
}

/// Whether the amount is negative or at least the width.
#[tactic(auto, unfolding(crate::specs::Operators::breaks_shift))]
fn breaks_shift(ty: Ty, n: i128) -> bool
    ensures { result ≡ breaks_shift ty n }
{
    n < 0 || n >= i128::from(ty.width)
}

/// 2^`n`.
fn power_of_two(n: i128) -> u64
    requires low { pos 0 ≤ℤ n }
    requires high { n <ℤ pos 64 }
    ensures is { result ≡ 2 ^ unsigned_abs n }
    ensures small { result ≤ 2 ^ 63 }
{
    1 << (n as u32)
}

/// `a` times 2^`n`.
fn shifted_left(ty: Ty, a: i128, n: i128) -> i128
    requires left { IsValue ty a }
    requires low { pos 0 ≤ℤ n }
    requires high { n <ℤ pos ty.width }
    ensures { result ≡ shifted_left a n }
{
    a * i128::from(power_of_two(n))
}

/// `a << n` (C11 6.5.7), wrapped: `None` where the amount is negative or at least the width.
#[tactic(auto, unfolding(crate::specs::Operators::shl, crate::specs::Operators::breaks_shift))]
pub fn shl(ty: Ty, a: i128, n: i128) -> Option<i128>
    requires { IsValue ty a }
    ensures is { result ≡ shl ty a n }
    ensures value { IfSome result (IsValue ty) }
{
    if breaks_shift(ty, n) {
        None
    } else {
        Some(wrap(ty, shifted_left(ty, a, n)))
    }
}

/// `a >> n` (C11 6.5.7), rounded down: `None` where the amount is negative or at least the width.
#[tactic(auto, unfolding(crate::specs::Operators::shr, crate::specs::Operators::breaks_shift))]
pub fn shr(ty: Ty, a: i128, n: i128) -> Option<i128>
    requires { IsValue ty a }
    ensures is { result ≡ shr ty a n }
    ensures value { IfSome result (IsValue ty) }
{
    if breaks_shift(ty, n) {
        None
    } else {
        Some(a >> n)
    }
}

/// The operators whose exact result may be no value of a type with a sign.
#[derive(Copy, Clone, PartialEq, Eq, Debug)]
pub enum Op {
    Add,
    Sub,
    Mul,
    Shl,
}

/// The exact result.
fn exact(op: Op, ty: Ty, a: i128, b: i128) -> i128
    requires sign { ty.signed ≡ true }
    requires left { IsValue ty a }
    requires right { IsRightOperand op ty b }
    ensures { result ≡ exact op a b }
{
    match op {
        Op::Add => a + b,
        Op::Sub => a - b,
        Op::Mul => a * b,
        Op::Shl => shifted_left(ty, a, b),
    }
}

/// Whether the operator is a shift of a negative number.
fn shifts_negative(op: Op, a: i128) -> bool
    ensures { result ≡ shifts_negative op a }
{
    match op {
        Op::Shl => a < 0,
        Op::Add | Op::Sub | Op::Mul => false,
    }
}

/// Whether the exact result of an operator on a type with a sign isn't a value of it, or the left operand of such a
/// `<<` is negative (C11 6.5p5, 6.5.7p4). A type without a sign never overflows.
#[tactic(auto, unfolding(crate::specs::Operators::overflows))]
pub fn overflows(op: Op, ty: Ty, a: i128, b: i128) -> bool
    requires left { IsValue ty a }
    requires right { IsRightOperand op ty b }
    ensures { result ≡ overflows op ty a b }
{
    ty.signed && (!is_value(ty, exact(op, ty, a, b)) || shifts_negative(op, a))
}

/// What a number becomes in the type (C11 6.3.1.2, 6.3.1.3): in `_Bool` 1 for each number but 0, else wrapped.
#[tactic(auto, unfolding(crate::specs::Operators::convert))]
pub fn convert(to: Ty, v: i128) -> i128
    ensures is { result ≡ convert to v }
    ensures value { IsValue to result }
{
    if to.width == 1 {
        i128::from(v != 0)
    } else {
        wrap(to, v)
    }
}
