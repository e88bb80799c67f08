// Operators on constant words.
ghost use Rattle.std.specs.Prelude.{◌≡◌, ◌≤ℤ◌, negsuc, pos};
ghost use Rattle.l2_bits.specs.Values.{IsValue};

use l2_bits::{Ty, add, and, convert, div, mul, rem, shl, shr, sub, wrap};
use l2_circuits::{
    ands, constant, convert as convert_word, eq, falsity, less, mul as product, quotients,
    shift_left, shift_right, sub as difference, sum,
};
use l2_cnf::Lit;
use l2_gates::Gates;
use std::alloc::{AllocError, Global};

/// An operator on two numbers of a type.
#[derive(Clone, Copy)]
pub enum Trial {
    Sum,
    Difference,
    Product,
    Quotient,
    Rest,
    ShiftLeft,
    ShiftRight,
    Less,
    Equal,
    And,
    Convert,
}

/// The bits of a word of constants, or a number beyond all words where it has a variable.
fn bits_of(word: &[Lit]) -> u64 {
    let mut bits: u64 = 0;
    for i in 0..word.len().min(32) {
        let bit = word[word.len().min(32) - 1 - i];
        if bit.var() != 1 {
            return u64::MAX;
        }
        bits = bits
            .saturating_mul(2)
            .saturating_add(u64::from(bit.is_positive()));
    }
    bits
}

/// The bits of what the circuits compute.
fn computed(
    alloc: Global,
    gates: &mut Gates,
    trial: Trial,
    signed: bool,
    a: &[Lit],
    b: &[Lit],
) -> Result<u64, AllocError> {
    match trial {
        Trial::Sum => Ok(bits_of(&sum(alloc, gates, a, b, falsity())?.bits)),
        Trial::Difference => Ok(bits_of(&difference(alloc, gates, a, b)?.bits)),
        Trial::Product => Ok(bits_of(&product(alloc, gates, a, b)?)),
        Trial::Quotient => Ok(bits_of(&quotients(alloc, gates, signed, a, b)?.quotient)),
        Trial::Rest => Ok(bits_of(&quotients(alloc, gates, signed, a, b)?.rest)),
        Trial::ShiftLeft => Ok(bits_of(&shift_left(alloc, gates, a, b)?)),
        Trial::ShiftRight => Ok(bits_of(&shift_right(alloc, gates, signed, a, b)?)),
        Trial::Less => Ok(bits_of(&[less(alloc, gates, signed, a, b)?])),
        Trial::Equal => Ok(bits_of(&[eq(alloc, gates, a, b)?])),
        Trial::And => Ok(bits_of(&ands(alloc, gates, a, b)?)),
        Trial::Convert => Ok(bits_of(&convert_word(alloc, gates, 16, signed, a)?)),
    }
}

/// What the operator gives, where it has an answer.
fn wanted(trial: Trial, ty: Ty, a: i128, b: i128) -> Option<i128>
    requires left { IsValue ty a }
    requires right { IsValue ty b }
{
    match trial {
        Trial::Sum => Some(add(ty, a, b)),
        Trial::Difference => Some(sub(ty, a, b)),
        Trial::Product => Some(mul(ty, a, b)),
        Trial::Quotient => div(ty, a, b),
        Trial::Rest => rem(ty, a, b),
        Trial::ShiftLeft => shl(ty, a, b),
        Trial::ShiftRight => shr(ty, a, b),
        Trial::Less => Some(i128::from(a < b)),
        Trial::Equal => Some(i128::from(a == b)),
        Trial::And => Some(and(ty, a, b)),
        Trial::Convert => Some(convert(Ty::SHORT, a)),
    }
}

/// The bits of a number of 16 bits or of 8.
fn bits_wanted(trial: Trial, value: i128) -> u64 {
    match trial {
        Trial::Convert => wrap(Ty::USHORT, value) as u64,
        _ => wrap(Ty::UCHAR, value) as u64,
    }
}

/// Whether the circuits compute on these two numbers what the operator gives.
fn agrees(
    alloc: Global,
    gates: &mut Gates,
    trial: Trial,
    ty: Ty,
    a: i128,
    b: i128,
) -> Result<bool, AllocError> {
    let (a, b) = (wrap(ty, a), wrap(ty, b));
    match wanted(trial, ty, a, b) {
        Some(value) => {
            let left = constant(alloc, 8, a)?;
            let right = constant(alloc, 8, b)?;
            let got = computed(alloc, gates, trial, ty.signed, &left, &right)?;
            Ok(got == bits_wanted(trial, value))
        }
        None => Ok(true),
    }
}

/// How many pairs of 256 numbers from this one on there are on which they differ.
pub fn differences(alloc: Global, trial: Trial, ty: Ty, first: i8) -> Result<u32, AllocError> {
    let mut gates = Gates::new(alloc)?;
    let mut count: u32 = 0;
    for a in 0..256_u32 {
        for b in 0..256_u32 {
            let (x, y) = (
                i128::from(first) + i128::from(a),
                i128::from(first) + i128::from(b),
            );
            if !agrees(alloc, &mut gates, trial, ty, x, y)? {
                count = count.saturating_add(1);
            }
        }
    }
    Ok(count)
}
