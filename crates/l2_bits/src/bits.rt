ghost use Rattle.std.specs.Prelude.{◌≡◌, ℕ, ◌<◌, ◌&&◌, ◌||◌};
ghost use Rattle.l2_bits.specs.Values.{IsValue};
ghost use Rattle.l2_bits.specs.Bits.{and, or, xor, bit, differ};

use crate::types::Ty;
use crate::values::{modulus, residue, wrap};

/// `a & b` (C11 6.5.10).
pub fn and(ty: Ty, a: i128, b: i128) -> i128
    requires left { IsValue ty a }
    requires right { IsValue ty b }
    ensures is { result ≡ and ty a b }
    ensures value { IsValue ty result }
    ensures bits { (i : ℕ) → i < ty.width → bit result i ≡ (bit a i && bit b i) }
{
    let n = modulus(ty);
    wrap(ty, i128::from(residue(n, a) & residue(n, b)))
}

/// `a | b` (C11 6.5.12).
pub fn or(ty: Ty, a: i128, b: i128) -> i128
    requires left { IsValue ty a }
    requires right { IsValue ty b }
    ensures is { result ≡ or ty a b }
    ensures value { IsValue ty result }
    ensures bits { (i : ℕ) → i < ty.width → bit result i ≡ (bit a i || bit b i) }
{
    let n = modulus(ty);
    wrap(ty, i128::from(residue(n, a) | residue(n, b)))
}

/// `a ^ b` (C11 6.5.11).
pub fn xor(ty: Ty, a: i128, b: i128) -> i128
    requires left { IsValue ty a }
    requires right { IsValue ty b }
    ensures is { result ≡ xor ty a b }
    ensures value { IsValue ty result }
    ensures bits { (i : ℕ) → i < ty.width → bit result i ≡ differ (bit a i) (bit b i) }
{
    let n = modulus(ty);
    wrap(ty, i128::from(residue(n, a) ^ residue(n, b)))
}
