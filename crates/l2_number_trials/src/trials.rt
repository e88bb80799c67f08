// Operators and tests on constant words.
ghost use Rattle.l2_bits.specs.Values.{IsValue};

use l2_bits::{Op, Ty, add, and, convert, div, mul, or, overflows, rem, shl, shr, sub, wrap, xor};
use l2_circuits::constant;
use l2_cnf::Lit;
use l2_code::Operator;
use l2_gates::Gates;
use l2_number_circuits::{
    convert_word, division_bit, index_bit, number_word, overflow_bit, shift_bit,
};
use std::alloc::{AllocError, Global};

/// What is computed of two numbers of a type, or of the first alone.
#[derive(Clone, Copy)]
pub enum Trial {
    Number(Operator),
    Division,
    Amount,
    Index,
    Overflow(Op),
    Convert(Ty),
}

/// The bits of a word of constants, or none where it has a variable.
fn bits_of(word: &[Lit]) -> Option<u128> {
    let mut bits: u128 = 0;
    for i in 0..word.len() {
        let bit = word[word.len() - 1 - i];
        if bit.var() != 1 {
            return None;
        }
        bits = bits
            .saturating_mul(2)
            .saturating_add(u128::from(bit.is_positive()));
    }
    Some(bits)
}

/// What an operator gives, where it has an answer.
fn operate(operator: Operator, ty: Ty, a: i128, b: i128) -> Option<i128>
    requires left { IsValue ty a }
    requires right { IsValue ty b }
{
    match operator {
        Operator::Add => Some(add(ty, a, b)),
        Operator::Sub => Some(sub(ty, a, b)),
        Operator::Mul => Some(mul(ty, a, b)),
        Operator::Div => div(ty, a, b),
        Operator::Rem => rem(ty, a, b),
        Operator::Shl => shl(ty, a, b),
        Operator::Shr => shr(ty, a, b),
        Operator::And => Some(and(ty, a, b)),
        Operator::Or => Some(or(ty, a, b)),
        Operator::Xor => Some(xor(ty, a, b)),
        Operator::Eq => Some(i128::from(a == b)),
        Operator::Ne => Some(i128::from(a != b)),
        Operator::Lt => Some(i128::from(a < b)),
        Operator::Le => Some(i128::from(a <= b)),
    }
}

/// Whether the exact result is a value, where the amount of a shift is below the width.
fn fits(op: Op, ty: Ty, a: i128, b: i128) -> Option<bool>
    requires left { IsValue ty a }
    requires right { IsValue ty b }
{
    match op {
        Op::Add => Some(!overflows(Op::Add, ty, a, b)),
        Op::Sub => Some(!overflows(Op::Sub, ty, a, b)),
        Op::Mul => Some(!overflows(Op::Mul, ty, a, b)),
        Op::Shl => {
            if b >= 0 && b < i128::from(ty.width) {
                Some(!overflows(Op::Shl, ty, a, b))
            } else {
                None
            }
        }
    }
}

fn truth(holds: bool) -> Option<i128> {
    Some(i128::from(holds))
}

/// Whether an exact result of a type with a sign is a value of it.
fn fits_signed(op: Op, ty: Ty, a: i128, b: i128) -> Option<i128>
    requires left { IsValue ty a }
    requires right { IsValue ty b }
{
    if !ty.signed {
        return None;
    }
    match fits(op, ty, a, b) {
        Some(holds) => truth(holds),
        None => None,
    }
}

/// What is wanted, where there is an answer. A type without a sign has no test on overflow.
fn wanted(trial: Trial, ty: Ty, a: i128, b: i128) -> Option<i128>
    requires left { IsValue ty a }
    requires right { IsValue ty b }
{
    match trial {
        Trial::Number(operator) => operate(operator, ty, a, b),
        Trial::Division => truth(div(ty, a, b).is_some()),
        Trial::Amount => truth(shl(ty, 0, a).is_some()),
        Trial::Index => truth(a >= 0 && a < 100),
        Trial::Overflow(op) => fits_signed(op, ty, a, b),
        Trial::Convert(to) => Some(convert(to, a)),
    }
}

/// The bits that are wanted, as those of a number without a sign.
fn bits_wanted(trial: Trial, value: i128) -> u128 {
    match trial {
        Trial::Convert(to) => match to.width {
            1 => wrap(Ty::BOOL, value) as u128,
            8 => wrap(Ty::UCHAR, value) as u128,
            16 => wrap(Ty::USHORT, value) as u128,
            32 => wrap(Ty::UINT, value) as u128,
            _ => wrap(Ty::ULONG, value) as u128,
        },
        _ => wrap(Ty::UCHAR, value) as u128,
    }
}

/// The bits of what the circuits compute.
fn computed(
    alloc: Global,
    gates: &mut Gates,
    trial: Trial,
    ty: Ty,
    a: &[Lit],
    b: &[Lit],
) -> Result<Option<u128>, AllocError> {
    match trial {
        Trial::Number(operator) => {
            let word = number_word(alloc, gates, operator, ty, a, b)?;
            Ok(bits_of(&word))
        }
        Trial::Division => Ok(bits_of(&[division_bit(alloc, gates, ty, a, b)?])),
        Trial::Amount => Ok(bits_of(&[shift_bit(alloc, gates, ty, ty.signed, a)?])),
        Trial::Index => Ok(bits_of(&[index_bit(alloc, gates, 100, ty.signed, a)?])),
        Trial::Overflow(op) => {
            let bit = overflow_bit(alloc, gates, op, ty, ty.signed, a, b)?;
            Ok(bits_of(&[bit]))
        }
        Trial::Convert(to) => {
            let word = convert_word(alloc, gates, to, ty.signed, a)?;
            Ok(bits_of(&word))
        }
    }
}

/// Whether the circuits compute on these two numbers what is wanted.
fn agrees(
    alloc: Global,
    gates: &mut Gates,
    trial: Trial,
    ty: Ty,
    a: i128,
    b: i128,
) -> Result<bool, AllocError> {
    let (a, b) = (wrap(ty, a), wrap(ty, b));
    match wanted(trial, ty, a, b) {
        Some(value) => {
            let left = constant(alloc, 8, a)?;
            let right = constant(alloc, 8, b)?;
            let got = computed(alloc, gates, trial, ty, &left, &right)?;
            Ok(got == Some(bits_wanted(trial, value)))
        }
        None => Ok(true),
    }
}

/// How many second numbers are tried with each first one.
fn seconds(trial: Trial) -> u32 {
    match trial {
        Trial::Amount | Trial::Index | Trial::Convert(_) => 1,
        Trial::Number(_) | Trial::Division | Trial::Overflow(_) => 256,
    }
}

/// How many pairs of 256 numbers from this one on there are on which they differ.
pub fn differences(alloc: Global, trial: Trial, ty: Ty, first: i8) -> Result<u32, AllocError> {
    let mut gates = Gates::new(alloc)?;
    let mut count: u32 = 0;
    for a in 0..256_u32 {
        for b in 0..seconds(trial) {
            let (x, y) = (
                i128::from(first) + i128::from(a),
                i128::from(first) + i128::from(b),
            );
            if !agrees(alloc, &mut gates, trial, ty, x, y)? {
                count = count.saturating_add(1);
            }
        }
    }
    Ok(count)
}
