// Bits of words, sums, comparisons and conversions.
ghost use Rattle.std.specs.Prelude.{◌≡◌, IfOk, OnOk};
ghost use Rattle.l2_gates.specs.Gates.{literal_of, literals_of};
ghost use Rattle.l2_circuits.specs.Words.{ands, ors, xors, choose, where_true, sum, sub, ltu, lts, less, less_equal, eq, to_bool, convert};

use crate::columns::{Kind, Total, columns};
use crate::literals::{extended, falsity, negated, negated_word, top_negated, truth, zeros};
use l2_cnf::Lit;
use l2_gates::Gates;
use std::alloc::{AllocError, Global};

/// `and` bit by bit.
pub fn ands(alloc: Global, gates: &mut Gates, a: &[Lit], b: &[Lit]) -> Result<Vec<Lit>, AllocError>
    ensures bits { IfOk result (λ w. literals_of w.items ≡ (ands (literals_of a.now) (literals_of b.now) gates.old).bits) }
    ensures made { OnOk result (gates.new ≡ (ands (literals_of a.now) (literals_of b.now) gates.old).made) }
{
    let total = columns(alloc, gates, Kind::And, a, b, falsity())?;
    Ok(total.bits)
}

/// `or` bit by bit.
pub fn ors(alloc: Global, gates: &mut Gates, a: &[Lit], b: &[Lit]) -> Result<Vec<Lit>, AllocError>
    ensures bits { IfOk result (λ w. literals_of w.items ≡ (ors (literals_of a.now) (literals_of b.now) gates.old).bits) }
    ensures made { OnOk result (gates.new ≡ (ors (literals_of a.now) (literals_of b.now) gates.old).made) }
{
    let total = columns(alloc, gates, Kind::Or, a, b, falsity())?;
    Ok(total.bits)
}

/// `xor` bit by bit.
pub fn xors(alloc: Global, gates: &mut Gates, a: &[Lit], b: &[Lit]) -> Result<Vec<Lit>, AllocError>
    ensures bits { IfOk result (λ w. literals_of w.items ≡ (xors (literals_of a.now) (literals_of b.now) gates.old).bits) }
    ensures made { OnOk result (gates.new ≡ (xors (literals_of a.now) (literals_of b.now) gates.old).made) }
{
    let total = columns(alloc, gates, Kind::Xor, a, b, falsity())?;
    Ok(total.bits)
}

/// The first word where `c` is true, else the second.
pub fn choose(
    alloc: Global,
    gates: &mut Gates,
    c: Lit,
    a: &[Lit],
    b: &[Lit],
) -> Result<Vec<Lit>, AllocError>
    ensures bits { IfOk result (λ w. literals_of w.items ≡ (choose (literal_of c) (literals_of a.now) (literals_of b.now) gates.old).bits) }
    ensures made { OnOk result (gates.new ≡ (choose (literal_of c) (literals_of a.now) (literals_of b.now) gates.old).made) }
{
    let total = columns(alloc, gates, Kind::Choose, a, b, c)?;
    Ok(total.bits)
}

/// Each bit of a word, where `c` is true.
pub fn where_true(
    alloc: Global,
    gates: &mut Gates,
    a: &[Lit],
    c: Lit,
) -> Result<Vec<Lit>, AllocError>
    ensures bits { IfOk result (λ w. literals_of w.items ≡ (where_true (literals_of a.now) (literal_of c) gates.old).bits) }
    ensures made { OnOk result (gates.new ≡ (where_true (literals_of a.now) (literal_of c) gates.old).made) }
{
    let total = columns(alloc, gates, Kind::Mask, a, a, c)?;
    Ok(total.bits)
}

/// The sum with a carry, and the last carry.
pub fn sum(
    alloc: Global,
    gates: &mut Gates,
    a: &[Lit],
    b: &[Lit],
    c: Lit,
) -> Result<Total, AllocError>
    ensures bits { IfOk result (λ s. literals_of s.bits.items ≡ (sum (literals_of a.now) (literals_of b.now) (literal_of c) gates.old).bits) }
    ensures carry { IfOk result (λ s. literal_of s.carry ≡ (sum (literals_of a.now) (literals_of b.now) (literal_of c) gates.old).carry) }
    ensures made { OnOk result (gates.new ≡ (sum (literals_of a.now) (literals_of b.now) (literal_of c) gates.old).made) }
{
    columns(alloc, gates, Kind::Add, a, b, c)
}

/// The difference, and the last carry.
pub fn sub(alloc: Global, gates: &mut Gates, a: &[Lit], b: &[Lit]) -> Result<Total, AllocError>
    ensures bits { IfOk result (λ s. literals_of s.bits.items ≡ (sub (literals_of a.now) (literals_of b.now) gates.old).bits) }
    ensures carry { IfOk result (λ s. literal_of s.carry ≡ (sub (literals_of a.now) (literals_of b.now) gates.old).carry) }
    ensures made { OnOk result (gates.new ≡ (sub (literals_of a.now) (literals_of b.now) gates.old).made) }
{
    let b = negated_word(alloc, b)?;
    sum(alloc, gates, a, &b, truth())
}

/// Whether the first is less, without signs.
pub fn ltu(alloc: Global, gates: &mut Gates, a: &[Lit], b: &[Lit]) -> Result<Lit, AllocError>
    ensures is { IfOk result (λ l. literal_of l ≡ (ltu (literals_of a.now) (literals_of b.now) gates.old).bit) }
    ensures made { OnOk result (gates.new ≡ (ltu (literals_of a.now) (literals_of b.now) gates.old).made) }
{
    let difference = sub(alloc, gates, a, b)?;
    Ok(negated(difference.carry))
}

/// Whether the first is less, with signs.
pub fn lts(alloc: Global, gates: &mut Gates, a: &[Lit], b: &[Lit]) -> Result<Lit, AllocError>
    ensures is { IfOk result (λ l. literal_of l ≡ (lts (literals_of a.now) (literals_of b.now) gates.old).bit) }
    ensures made { OnOk result (gates.new ≡ (lts (literals_of a.now) (literals_of b.now) gates.old).made) }
{
    let a = top_negated(alloc, a)?;
    let b = top_negated(alloc, b)?;
    ltu(alloc, gates, &a, &b)
}

/// Whether the first is less.
pub fn less(
    alloc: Global,
    gates: &mut Gates,
    signed: bool,
    a: &[Lit],
    b: &[Lit],
) -> Result<Lit, AllocError>
    ensures is { IfOk result (λ l. literal_of l ≡ (less signed (literals_of a.now) (literals_of b.now) gates.old).bit) }
    ensures made { OnOk result (gates.new ≡ (less signed (literals_of a.now) (literals_of b.now) gates.old).made) }
{
    if signed {
        lts(alloc, gates, a, b)
    } else {
        ltu(alloc, gates, a, b)
    }
}

/// Whether the first is at most the second.
pub fn less_equal(
    alloc: Global,
    gates: &mut Gates,
    signed: bool,
    a: &[Lit],
    b: &[Lit],
) -> Result<Lit, AllocError>
    ensures is { IfOk result (λ l. literal_of l ≡ (less_equal signed (literals_of a.now) (literals_of b.now) gates.old).bit) }
    ensures made { OnOk result (gates.new ≡ (less_equal signed (literals_of a.now) (literals_of b.now) gates.old).made) }
{
    let more = less(alloc, gates, signed, b, a)?;
    Ok(negated(more))
}

/// Whether both are equal.
pub fn eq(alloc: Global, gates: &mut Gates, a: &[Lit], b: &[Lit]) -> Result<Lit, AllocError>
    ensures is { IfOk result (λ l. literal_of l ≡ (eq (literals_of a.now) (literals_of b.now) gates.old).bit) }
    ensures made { OnOk result (gates.new ≡ (eq (literals_of a.now) (literals_of b.now) gates.old).made) }
{
    let total = columns(alloc, gates, Kind::Equal, a, b, truth())?;
    Ok(total.carry)
}

/// Whether a word isn't 0, as one bit.
fn to_bool(alloc: Global, gates: &mut Gates, a: &[Lit]) -> Result<Vec<Lit>, AllocError>
    ensures bits { IfOk result (λ w. literals_of w.items ≡ (to_bool (literals_of a.now) gates.old).bits) }
    ensures made { OnOk result (gates.new ≡ (to_bool (literals_of a.now) gates.old).made) }
{
    let none = zeros(alloc, a)?;
    let is_none = eq(alloc, gates, a, &none)?;
    let mut word = Vec::new(alloc);
    word.push(negated(is_none))?;
    Ok(word)
}

/// A word that has a sign or not, as one of so many bits; as one bit it is whether it isn't 0.
pub fn convert(
    alloc: Global,
    gates: &mut Gates,
    width: usize,
    signed: bool,
    a: &[Lit],
) -> Result<Vec<Lit>, AllocError>
    ensures bits { IfOk result (λ w. literals_of w.items ≡ (convert width signed (literals_of a.now) gates.old).bits) }
    ensures made { OnOk result (gates.new ≡ (convert width signed (literals_of a.now) gates.old).made) }
{
    if width == 1 {
        to_bool(alloc, gates, a)
    } else {
        extended(alloc, width, signed, a)
    }
}
