// Tests on numbers: whether a check passes.
ghost use Rattle.std.specs.Prelude.{◌≡◌, IfOk, OnOk};
ghost use Rattle.l2_bits.specs.Values.{least};
ghost use Rattle.l2_gates.specs.Gates.{known, literal_of, literals_of};
ghost use Rattle.l2_circuits.specs.Words.{known_word, top};
ghost use Rattle.l2_number_circuits.specs.Numbers.{signed_division_bit, division_bit, within_bit, shift_bit, index_bit, wide, exact_word, fits_bit, shifts_no_negative, overflow_bit};

use crate::operators::{difference_word, sum_word};
use l2_bits::{Op, Ty};
use l2_circuits::{constant, eq, extended, falsity, lts, ltu, mul, negated, resized, shift_left};
use l2_cnf::Lit;
use l2_gates::Gates;
use std::alloc::{AllocError, Global};

fn least(ty: Ty) -> i128
    ensures { result ≡ least ty }
{
    if !ty.signed {
        return 0;
    }
    match ty.width {
        8 => -(1 << 7),
        16 => -(1 << 15),
        32 => -(1 << 31),
        _ => -(1 << 63),
    }
}

/// Of a type with a sign: the divisor isn't 0, and the least value isn't divided by -1.
fn signed_division_bit(
    alloc: Global,
    gates: &mut Gates,
    ty: Ty,
    a: &[Lit],
    b: &[Lit],
) -> Result<Lit, AllocError>
    ensures is { IfOk result (λ l. literal_of l ≡ (signed_division_bit ty (literals_of a.now) (literals_of b.now) gates.old).bit) }
    ensures made { OnOk result (gates.new ≡ (signed_division_bit ty (literals_of a.now) (literals_of b.now) gates.old).made) }
{
    let width = usize::from(ty.width);
    let zero = constant(alloc, width, 0)?;
    let by_zero = eq(alloc, gates, b, &zero)?;
    let least = constant(alloc, width, least(ty))?;
    let is_least = eq(alloc, gates, a, &least)?;
    let minus_one = constant(alloc, width, -1)?;
    let by_minus_one = eq(alloc, gates, b, &minus_one)?;
    let too_large = gates.and(is_least, by_minus_one)?;
    gates.and(negated(by_zero), negated(too_large))
}

/// Whether the quotient of two words of a type is a value of it.
pub fn division_bit(
    alloc: Global,
    gates: &mut Gates,
    ty: Ty,
    a: &[Lit],
    b: &[Lit],
) -> Result<Lit, AllocError>
    ensures is { IfOk result (λ l. literal_of l ≡ (division_bit ty (literals_of a.now) (literals_of b.now) gates.old).bit) }
    ensures made { OnOk result (gates.new ≡ (division_bit ty (literals_of a.now) (literals_of b.now) gates.old).made) }
{
    if ty.signed {
        signed_division_bit(alloc, gates, ty, a, b)
    } else {
        let zero = constant(alloc, usize::from(ty.width), 0)?;
        let by_zero = eq(alloc, gates, b, &zero)?;
        Ok(negated(by_zero))
    }
}

/// Whether a word of so many bits with a sign is from 0 to below an end.
fn within_bit(
    alloc: Global,
    gates: &mut Gates,
    width: usize,
    end: i128,
    a: &[Lit],
) -> Result<Lit, AllocError>
    ensures is { IfOk result (λ l. literal_of l ≡ (within_bit width end (literals_of a.now) gates.old).bit) }
    ensures made { OnOk result (gates.new ≡ (within_bit width end (literals_of a.now) gates.old).made) }
{
    let zero = constant(alloc, width, 0)?;
    let negative = lts(alloc, gates, a, &zero)?;
    let end = constant(alloc, width, end)?;
    let below = lts(alloc, gates, a, &end)?;
    gates.and(negated(negative), below)
}

/// Whether an amount, a word that has a sign or not, is from 0 to below a type's width.
#[tactic(auto, using(l2_circuits::proofs::Bits::literals_length))]
pub fn shift_bit(
    alloc: Global,
    gates: &mut Gates,
    ty: Ty,
    signed: bool,
    a: &[Lit],
) -> Result<Lit, AllocError>
    ensures is { IfOk result (λ l. literal_of l ≡ (shift_bit ty signed (literals_of a.now) gates.old).bit) }
    ensures made { OnOk result (gates.new ≡ (shift_bit ty signed (literals_of a.now) gates.old).made) }
{
    if signed {
        within_bit(alloc, gates, a.len(), i128::from(ty.width), a)
    } else {
        let end = constant(alloc, a.len(), i128::from(ty.width))?;
        ltu(alloc, gates, a, &end)
    }
}

/// Whether an index, a word that has a sign or not, is from 0 to below an end.
#[tactic(auto, using(l2_circuits::proofs::Bits::literals_length))]
pub fn index_bit(
    alloc: Global,
    gates: &mut Gates,
    end: i128,
    signed: bool,
    a: &[Lit],
) -> Result<Lit, AllocError>
    ensures is { IfOk result (λ l. literal_of l ≡ (index_bit end signed (literals_of a.now) gates.old).bit) }
    ensures made { OnOk result (gates.new ≡ (index_bit end signed (literals_of a.now) gates.old).made) }
{
    let width = a.len() + 2;
    let word = extended(alloc, width, signed, a)?;
    within_bit(alloc, gates, width, end, &word)
}

/// How many bits exact results are computed with.
fn wide(ty: Ty) -> usize
    ensures { result ≡ wide ty }
{
    usize::from(ty.width) + usize::from(ty.width) + 2
}

fn exact_word(
    alloc: Global,
    gates: &mut Gates,
    op: Op,
    a: &[Lit],
    b: &[Lit],
) -> Result<Vec<Lit>, AllocError>
    ensures bits { IfOk result (λ w. literals_of w.items ≡ (exact_word op (literals_of a.now) (literals_of b.now) gates.old).bits) }
    ensures made { OnOk result (gates.new ≡ (exact_word op (literals_of a.now) (literals_of b.now) gates.old).made) }
{
    match op {
        Op::Add => sum_word(alloc, gates, a, b),
        Op::Sub => difference_word(alloc, gates, a, b),
        Op::Mul => mul(alloc, gates, a, b),
        Op::Shl => shift_left(alloc, gates, a, b),
    }
}

/// Whether a wide word shows a value of the type.
fn fits_bit(alloc: Global, gates: &mut Gates, ty: Ty, a: &[Lit]) -> Result<Lit, AllocError>
    ensures is { IfOk result (λ l. literal_of l ≡ (fits_bit ty (known_word (literals_of a.now) gates.old)).bit) }
    ensures made { OnOk result (gates.new ≡ (fits_bit ty (known_word (literals_of a.now) gates.old)).made) }
{
    let low = resized(alloc, usize::from(ty.width), falsity(), a)?;
    let shown = extended(alloc, wide(ty), ty.signed, &low)?;
    eq(alloc, gates, a, &shown)
}

/// The top bit; a word without bits has the literal that is false.
fn top(a: &[Lit]) -> Lit
    ensures { literal_of result ≡ top (literals_of a.now) }
{
    match a.last() {
        Some(bit) => *bit,
        None => falsity(),
    }
}

/// Whether the word is 0 or more, where it is shifted to the left.
fn shifts_no_negative(gates: &mut Gates, op: Op, a: &[Lit], fits: Lit) -> Result<Lit, AllocError>
    ensures is { IfOk result (λ l. literal_of l ≡ (shifts_no_negative op (literals_of a.now) (known (literal_of fits) gates.old)).bit) }
    ensures made { OnOk result (gates.new ≡ (shifts_no_negative op (literals_of a.now) (known (literal_of fits) gates.old)).made) }
{
    match op {
        Op::Shl => gates.and(negated(top(a)), fits),
        Op::Add | Op::Sub | Op::Mul => Ok(fits),
    }
}

/// Whether the exact result is a value of the type; the right operand is a word that has a sign or not.
pub fn overflow_bit(
    alloc: Global,
    gates: &mut Gates,
    op: Op,
    ty: Ty,
    signed: bool,
    a: &[Lit],
    b: &[Lit],
) -> Result<Lit, AllocError>
    ensures is { IfOk result (λ l. literal_of l ≡ (overflow_bit op ty signed (literals_of a.now) (literals_of b.now) gates.old).bit) }
    ensures made { OnOk result (gates.new ≡ (overflow_bit op ty signed (literals_of a.now) (literals_of b.now) gates.old).made) }
{
    let left = extended(alloc, wide(ty), ty.signed, a)?;
    let right = extended(alloc, wide(ty), signed, b)?;
    let exact = exact_word(alloc, gates, op, &left, &right)?;
    let fits = fits_bit(alloc, gates, ty, &exact)?;
    shifts_no_negative(gates, op, a, fits)
}
