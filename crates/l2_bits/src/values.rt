ghost use Rattle.std.specs.Prelude.{◌≡◌, ℕ, ◌^◌, ◌<◌, ◌≤◌, ◌-◌, pos, ◌≤ℤ◌, ◌<ℤ◌, IsTrue, ◌↔◌};
ghost use Rattle.l2_bits.specs.Values.{modulus, least, greatest, IsValue, is_value, IsWrapOf, residue, signed_of, wrap};

use crate::types::Ty;

/// How many values a type has.
pub(crate) fn modulus(ty: Ty) -> u128
    ensures is { result ≡ modulus ty }
    ensures low { 2 ≤ result }
    ensures high { result ≤ 2 ^ 64 }
{
    match ty.width {
        1 => 1 << 1,
        8 => 1 << 8,
        16 => 1 << 16,
        32 => 1 << 32,
        _ => 1 << 64,
    }
}

fn least(ty: Ty) -> i128
    ensures { result ≡ least ty }
{
    if ty.signed {
        -((modulus(ty) / 2) as i128)
    } else {
        0
    }
}

fn greatest(ty: Ty) -> i128
    ensures { result ≡ greatest ty }
{
    if ty.signed {
        (modulus(ty) / 2 - 1) as i128
    } else {
        (modulus(ty) - 1) as i128
    }
}

/// Whether `v` is a value of the type.
pub fn is_value(ty: Ty, v: i128) -> bool
    ensures test { result ≡ is_value ty v }
    ensures fact { IsTrue result ↔ IsValue ty v }
{
    least(ty) <= v && v <= greatest(ty)
}

/// What is left of `v` past the multiples of `n`.
pub(crate) fn residue(n: u128, v: i128) -> u64
    requires some { 0 < n }
    requires high { n ≤ 2 ^ 64 }
    ensures is { result ≡ residue n v }
    ensures below { result < n }
{
    v.rem_euclid(n as i128) as u64
}

/// The number from `-n/2` on that a residue stands for.
fn signed_of(n: u128, r: u64) -> i128
    requires high { n ≤ 2 ^ 64 }
    requires below { r < n }
    ensures { result ≡ signed_of n r }
{
    if u128::from(r) + u128::from(r) < n {
        i128::from(r)
    } else {
        i128::from(r) - n as i128
    }
}

/// The value that a residue stands for in a type with a sign or without.
#[tactic(auto, unfolding(crate::specs::Values::wrap))]
fn computed_wrap(ty: Ty, v: i128) -> i128
    ensures { result ≡ wrap ty v }
{
    let n = modulus(ty);
    let r = residue(n, v);
    if ty.signed {
        signed_of(n, r)
    } else {
        i128::from(r)
    }
}

/// The value of the type that is congruent to `v` modulo 2^width.
pub fn wrap(ty: Ty, v: i128) -> i128
    ensures is { result ≡ wrap ty v }
    ensures congruent { IsWrapOf ty v result }
{
    computed_wrap(ty, v)
}
