// Operators on numbers, and conversions.
ghost use Rattle.std.specs.Prelude.{◌≡◌, IfOk, OnOk};
ghost use Rattle.l2_gates.specs.Gates.{F, literal_of, literals_of};
ghost use Rattle.l2_circuits.specs.Words.{sum, sub, less, less_equal, eq, opposite};
ghost use Rattle.l2_circuits.specs.Products.{quotients};
ghost use Rattle.l2_number_circuits.specs.Numbers.{quotient_word, rest_word, truth_of, number_word, convert_word};

use l2_bits::Ty;
use l2_circuits::{
    ands, convert, eq, falsity, less, less_equal, mul, negated, ors, quotients, shift_left,
    shift_right, sub, sum, truth_word, xors,
};
use l2_cnf::Lit;
use l2_code::Operator;
use l2_gates::Gates;
use std::alloc::{AllocError, Global};

pub(crate) fn sum_word(
    alloc: Global,
    gates: &mut Gates,
    a: &[Lit],
    b: &[Lit],
) -> Result<Vec<Lit>, AllocError>
    ensures bits { IfOk result (λ w. literals_of w.items ≡ (sum (literals_of a.now) (literals_of b.now) F gates.old).bits) }
    ensures made { OnOk result (gates.new ≡ (sum (literals_of a.now) (literals_of b.now) F gates.old).made) }
{
    let total = sum(alloc, gates, a, b, falsity())?;
    Ok(total.bits)
}

pub(crate) fn difference_word(
    alloc: Global,
    gates: &mut Gates,
    a: &[Lit],
    b: &[Lit],
) -> Result<Vec<Lit>, AllocError>
    ensures bits { IfOk result (λ w. literals_of w.items ≡ (sub (literals_of a.now) (literals_of b.now) gates.old).bits) }
    ensures made { OnOk result (gates.new ≡ (sub (literals_of a.now) (literals_of b.now) gates.old).made) }
{
    let total = sub(alloc, gates, a, b)?;
    Ok(total.bits)
}

fn quotient_word(
    alloc: Global,
    gates: &mut Gates,
    signed: bool,
    a: &[Lit],
    b: &[Lit],
) -> Result<Vec<Lit>, AllocError>
    ensures bits { IfOk result (λ w. literals_of w.items ≡ (quotient_word (quotients signed (literals_of a.now) (literals_of b.now) gates.old)).bits) }
    ensures made { OnOk result (gates.new ≡ (quotient_word (quotients signed (literals_of a.now) (literals_of b.now) gates.old)).made) }
{
    let parts = quotients(alloc, gates, signed, a, b)?;
    Ok(parts.quotient)
}

fn rest_word(
    alloc: Global,
    gates: &mut Gates,
    signed: bool,
    a: &[Lit],
    b: &[Lit],
) -> Result<Vec<Lit>, AllocError>
    ensures bits { IfOk result (λ w. literals_of w.items ≡ (rest_word (quotients signed (literals_of a.now) (literals_of b.now) gates.old)).bits) }
    ensures made { OnOk result (gates.new ≡ (rest_word (quotients signed (literals_of a.now) (literals_of b.now) gates.old)).made) }
{
    let parts = quotients(alloc, gates, signed, a, b)?;
    Ok(parts.rest)
}

fn equal_word(
    alloc: Global,
    gates: &mut Gates,
    a: &[Lit],
    b: &[Lit],
) -> Result<Vec<Lit>, AllocError>
    ensures bits { IfOk result (λ w. literals_of w.items ≡ (truth_of (eq (literals_of a.now) (literals_of b.now) gates.old)).bits) }
    ensures made { OnOk result (gates.new ≡ (truth_of (eq (literals_of a.now) (literals_of b.now) gates.old)).made) }
{
    let equal = eq(alloc, gates, a, b)?;
    truth_word(alloc, equal)
}

fn different_word(
    alloc: Global,
    gates: &mut Gates,
    a: &[Lit],
    b: &[Lit],
) -> Result<Vec<Lit>, AllocError>
    ensures bits { IfOk result (λ w. literals_of w.items ≡ (truth_of (opposite (eq (literals_of a.now) (literals_of b.now) gates.old))).bits) }
    ensures made { OnOk result (gates.new ≡ (truth_of (opposite (eq (literals_of a.now) (literals_of b.now) gates.old))).made) }
{
    let equal = eq(alloc, gates, a, b)?;
    truth_word(alloc, negated(equal))
}

fn less_word(
    alloc: Global,
    gates: &mut Gates,
    signed: bool,
    a: &[Lit],
    b: &[Lit],
) -> Result<Vec<Lit>, AllocError>
    ensures bits { IfOk result (λ w. literals_of w.items ≡ (truth_of (less signed (literals_of a.now) (literals_of b.now) gates.old)).bits) }
    ensures made { OnOk result (gates.new ≡ (truth_of (less signed (literals_of a.now) (literals_of b.now) gates.old)).made) }
{
    let under = less(alloc, gates, signed, a, b)?;
    truth_word(alloc, under)
}

fn less_equal_word(
    alloc: Global,
    gates: &mut Gates,
    signed: bool,
    a: &[Lit],
    b: &[Lit],
) -> Result<Vec<Lit>, AllocError>
    ensures bits { IfOk result (λ w. literals_of w.items ≡ (truth_of (less_equal signed (literals_of a.now) (literals_of b.now) gates.old)).bits) }
    ensures made { OnOk result (gates.new ≡ (truth_of (less_equal signed (literals_of a.now) (literals_of b.now) gates.old)).made) }
{
    let at_most = less_equal(alloc, gates, signed, a, b)?;
    truth_word(alloc, at_most)
}

/// An operator on two words of a type, bit 0 first. A shift's amount is a word of any length; a comparison gives 32 bits.
pub fn number_word(
    alloc: Global,
    gates: &mut Gates,
    operator: Operator,
    ty: Ty,
    a: &[Lit],
    b: &[Lit],
) -> Result<Vec<Lit>, AllocError>
    ensures bits { IfOk result (λ w. literals_of w.items ≡ (number_word operator ty (literals_of a.now) (literals_of b.now) gates.old).bits) }
    ensures made { OnOk result (gates.new ≡ (number_word operator ty (literals_of a.now) (literals_of b.now) gates.old).made) }
{
    match operator {
        Operator::Add => sum_word(alloc, gates, a, b),
        Operator::Sub => difference_word(alloc, gates, a, b),
        Operator::Mul => mul(alloc, gates, a, b),
        Operator::Div => quotient_word(alloc, gates, ty.signed, a, b),
        Operator::Rem => rest_word(alloc, gates, ty.signed, a, b),
        Operator::Shl => shift_left(alloc, gates, a, b),
        Operator::Shr => shift_right(alloc, gates, ty.signed, a, b),
        Operator::And => ands(alloc, gates, a, b),
        Operator::Or => ors(alloc, gates, a, b),
        Operator::Xor => xors(alloc, gates, a, b),
        Operator::Eq => equal_word(alloc, gates, a, b),
        Operator::Ne => different_word(alloc, gates, a, b),
        Operator::Lt => less_word(alloc, gates, ty.signed, a, b),
        Operator::Le => less_equal_word(alloc, gates, ty.signed, a, b),
    }
}

/// A word that has a sign or not, as one of a type; as `_Bool` it is whether it isn't 0.
pub fn convert_word(
    alloc: Global,
    gates: &mut Gates,
    to: Ty,
    signed: bool,
    a: &[Lit],
) -> Result<Vec<Lit>, AllocError>
    ensures bits { IfOk result (λ w. literals_of w.items ≡ (convert_word to signed (literals_of a.now) gates.old).bits) }
    ensures made { OnOk result (gates.new ≡ (convert_word to signed (literals_of a.now) gates.old).made) }
{
    convert(alloc, gates, usize::from(to.width), signed, a)
}
