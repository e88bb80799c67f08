// Words of pointers.
ghost use Rattle.std.specs.Prelude.{◌≡◌, ◌++◌, suc, IfOk, OnOk};
ghost use Rattle.l2_gates.specs.Gates.{literal_of, literals_of};
ghost use Rattle.l2_code.specs.declared.action.PointerOperator.TheVariants as operator;
ghost use Rattle.l2_pointer_circuits.specs.Tests.{place};
ghost use Rattle.l2_pointer_circuits.specs.Words.{selector, offset, half, factor, extended_offset, low_half, pointer_word, is_half, at_bit, pick_word, moved_offset, moved_word, operator_word};

use l2_circuits::{
    choose, constant, eq, falsity, ltu, mul, negated, resized, sub, sum, truth_word,
};
use l2_cnf::Lit;
use l2_code::PointerOperator;
use l2_gates::Gates;
use l2_runs::CellValue;
use std::alloc::{AllocError, Global};

/// The selector of a pointer.
#[tactic(auto, using(crate::proofs::Bits::all_taken))]
pub fn selector(a: &[Lit]) -> &[Lit]
    ensures { literals_of result.now ≡ selector (literals_of a.now) }
{
    if a.len() > 17 { &a[..17] } else { a }
}

/// The offset of a pointer.
#[tactic(auto, using(crate::proofs::Bits::all_dropped))]
pub fn offset(a: &[Lit]) -> &[Lit]
    ensures { literals_of result.now ≡ offset (literals_of a.now) }
{
    if a.len() > 17 { &a[17..] } else { &[] }
}

/// The selector of an object.
pub fn selector_after(object: u32) -> u64
    ensures { result ≡ suc object }
{
    u64::from(object) + 1
}

/// A constant half of a pointer.
#[tactic(auto, unfolding(crate::specs::Words::half))]
pub fn half(alloc: Global, number: u64) -> Result<Vec<Lit>, AllocError>
    ensures { IfOk result (λ w. literals_of w.items ≡ half number) }
{
    constant(alloc, 17, i128::from(number))
}

fn halves(alloc: Global, selector: u64, offset: u64) -> Result<Vec<Lit>, AllocError>
    ensures { IfOk result (λ w. literals_of w.items ≡ half selector ++ half offset) }
{
    let mut word = half(alloc, selector)?;
    let low = half(alloc, offset)?;
    word.extend_from_slice(&low)?;
    Ok(word)
}

/// The word of a constant pointer.
pub fn pointer_word(alloc: Global, value: CellValue) -> Result<Vec<Lit>, AllocError>
    ensures { IfOk result (λ w. literals_of w.items ≡ pointer_word value) }
{
    match value {
        CellValue::Number(number) => halves(alloc, 0, 0),
        CellValue::Null => halves(alloc, 0, 0),
        CellValue::Invalid => halves(alloc, 1, 0),
        CellValue::At { object, offset } => {
            halves(alloc, selector_after(object), u64::from(offset))
        }
    }
}

/// Whether a half is this number.
pub fn is_half(alloc: Global, gates: &mut Gates, number: u64, a: &[Lit]) -> Result<Lit, AllocError>
    ensures is { IfOk result (λ l. literal_of l ≡ (is_half number (literals_of a.now) gates.old).bit) }
    ensures made { OnOk result (gates.new ≡ (is_half number (literals_of a.now) gates.old).made) }
{
    let word = half(alloc, number)?;
    eq(alloc, gates, a, &word)
}

/// Whether a pointer is this object's and has this offset.
#[tactic(auto, unfolding(crate::specs::Words::at_bit))]
pub fn place_bit(
    alloc: Global,
    gates: &mut Gates,
    object: u32,
    at: u64,
    a: &[Lit],
) -> Result<Lit, AllocError>
    ensures is { IfOk result (λ l. literal_of l ≡ (at_bit (place object at) (literals_of a.now) gates.old).bit) }
    ensures made { OnOk result (gates.new ≡ (at_bit (place object at) (literals_of a.now) gates.old).made) }
{
    let s = is_half(alloc, gates, selector_after(object), selector(a))?;
    let o = is_half(alloc, gates, at, offset(a))?;
    gates.and(s, o)
}

/// Whether a pointer is this object's and has this offset.
pub fn at_bit(
    alloc: Global,
    gates: &mut Gates,
    object: u32,
    at: u32,
    a: &[Lit],
) -> Result<Lit, AllocError>
    ensures is { IfOk result (λ l. literal_of l ≡ (at_bit (place object at) (literals_of a.now) gates.old).bit) }
    ensures made { OnOk result (gates.new ≡ (at_bit (place object at) (literals_of a.now) gates.old).made) }
{
    place_bit(alloc, gates, object, u64::from(at), a)
}

/// The first word where the pointer is at this place, else the second.
pub fn pick_word(
    alloc: Global,
    gates: &mut Gates,
    object: u32,
    at: u32,
    a: &[Lit],
    x: &[Lit],
    y: &[Lit],
) -> Result<Vec<Lit>, AllocError>
    ensures bits { IfOk result (λ w. literals_of w.items ≡ (pick_word (place object at) (literals_of a.now) (literals_of x.now) (literals_of y.now) gates.old).bits) }
    ensures made { OnOk result (gates.new ≡ (pick_word (place object at) (literals_of a.now) (literals_of x.now) (literals_of y.now) gates.old).made) }
{
    let e = at_bit(alloc, gates, object, at, a)?;
    choose(alloc, gates, e, x, y)
}

/// How many cells one step is, in 96 bits.
#[tactic(auto, unfolding(crate::specs::Words::factor))]
fn factor(alloc: Global, by: i64) -> Result<Vec<Lit>, AllocError>
    ensures { IfOk result (λ w. literals_of w.items ≡ factor by) }
{
    constant(alloc, 96, i128::from(by))
}

/// The offset of a pointer in so many bits.
#[tactic(auto, unfolding(crate::specs::Words::extended_offset))]
fn extended_offset(alloc: Global, width: usize, a: &[Lit]) -> Result<Vec<Lit>, AllocError>
    ensures { IfOk result (λ w. literals_of w.items ≡ extended_offset width (literals_of a.now)) }
{
    resized(alloc, width, falsity(), offset(a))
}

/// The offset of a pointer after a move, in 96 bits.
#[tactic(auto, unfolding(crate::specs::Words::moved_offset))]
pub fn moved_offset(
    alloc: Global,
    gates: &mut Gates,
    by: i64,
    a: &[Lit],
    b: &[Lit],
) -> Result<Vec<Lit>, AllocError>
    ensures bits { IfOk result (λ w. literals_of w.items ≡ (moved_offset by (literals_of a.now) (literals_of b.now) gates.old).bits) }
    ensures made { OnOk result (gates.new ≡ (moved_offset by (literals_of a.now) (literals_of b.now) gates.old).made) }
{
    let step = factor(alloc, by)?;
    let product = mul(alloc, gates, b, &step)?;
    let from = extended_offset(alloc, 96, a)?;
    let total = sum(alloc, gates, &product, &from, falsity())?;
    Ok(total.bits)
}

/// As many of the lowest bits as a half has.
#[tactic(auto, unfolding(crate::specs::Words::low_half))]
fn low_half(alloc: Global, a: &[Lit]) -> Result<Vec<Lit>, AllocError>
    ensures { IfOk result (λ w. literals_of w.items ≡ low_half (literals_of a.now)) }
{
    resized(alloc, 17, falsity(), a)
}

/// A pointer, moved by a number of 96 bits times so many cells.
#[tactic(auto, using(crate::proofs::Bits::literals_append))]
pub fn moved_word(
    alloc: Global,
    gates: &mut Gates,
    by: i64,
    a: &[Lit],
    b: &[Lit],
) -> Result<Vec<Lit>, AllocError>
    ensures bits { IfOk result (λ w. literals_of w.items ≡ (moved_word by (literals_of a.now) (literals_of b.now) gates.old).bits) }
    ensures made { OnOk result (gates.new ≡ (moved_word by (literals_of a.now) (literals_of b.now) gates.old).made) }
{
    let x = moved_offset(alloc, gates, by, a, b)?;
    let low = low_half(alloc, &x)?;
    let mut word = Vec::new(alloc);
    word.extend_from_slice(selector(a))?;
    word.extend_from_slice(&low)?;
    Ok(word)
}

/// The difference of two offsets, in 64 bits.
fn difference(
    alloc: Global,
    gates: &mut Gates,
    a: &[Lit],
    b: &[Lit],
) -> Result<Vec<Lit>, AllocError>
    ensures bits { IfOk result (λ w. literals_of w.items ≡ (operator_word operator.Diff (literals_of a.now) (literals_of b.now) gates.old).bits) }
    ensures made { OnOk result (gates.new ≡ (operator_word operator.Diff (literals_of a.now) (literals_of b.now) gates.old).made) }
{
    let x = extended_offset(alloc, 64, a)?;
    let y = extended_offset(alloc, 64, b)?;
    let total = sub(alloc, gates, &x, &y)?;
    Ok(total.bits)
}

/// An operator on two pointers: a difference has 64 bits, a comparison 32.
pub fn operator_word(
    alloc: Global,
    gates: &mut Gates,
    op: PointerOperator,
    a: &[Lit],
    b: &[Lit],
) -> Result<Vec<Lit>, AllocError>
    ensures bits { IfOk result (λ w. literals_of w.items ≡ (operator_word op (literals_of a.now) (literals_of b.now) gates.old).bits) }
    ensures made { OnOk result (gates.new ≡ (operator_word op (literals_of a.now) (literals_of b.now) gates.old).made) }
{
    match op {
        PointerOperator::Diff => difference(alloc, gates, a, b),
        PointerOperator::Eq => {
            let l = eq(alloc, gates, a, b)?;
            truth_word(alloc, l)
        }
        PointerOperator::Ne => {
            let l = eq(alloc, gates, a, b)?;
            truth_word(alloc, negated(l))
        }
        PointerOperator::Lt => {
            let l = ltu(alloc, gates, offset(a), offset(b))?;
            truth_word(alloc, l)
        }
        PointerOperator::Le => {
            let l = ltu(alloc, gates, offset(b), offset(a))?;
            truth_word(alloc, negated(l))
        }
    }
}
