// Literals and words without a gate.
ghost use Rattle.std.specs.Prelude.{◌≡◌, ◌∷◌, [], IfOk, slice_index_or};
ghost use Rattle.l2_gates.specs.Gates.{T, F, negated, literal_of, literals_of};
ghost use Rattle.l2_circuits.specs.Words.{negated_word, top, top_negated, resized, filling, extended, literal_if, digits, constant, truth_word, zeros};

use l2_cnf::Lit;
use std::alloc::{AllocError, Global};

/// The literal that is true.
pub fn truth() -> Lit
    ensures { literal_of result ≡ T }
{
    Lit::new(1, true)
}

/// The literal that is false.
pub fn falsity() -> Lit
    ensures { literal_of result ≡ F }
{
    Lit::new(1, false)
}

pub fn negated(a: Lit) -> Lit
    ensures { literal_of result ≡ negated (literal_of a) }
{
    a.negated()
}

pub fn negated_word(alloc: Global, a: &[Lit]) -> Result<Vec<Lit>, AllocError>
    ensures { IfOk result (λ w. literals_of w.items ≡ negated_word (literals_of a.now)) }
{
    let mut word = Vec::new(alloc);
    for bit in a {
        word.push(negated(*bit))?;
    }
    Ok(word)
}

/// The word 0 of this length.
pub fn zeros(alloc: Global, a: &[Lit]) -> Result<Vec<Lit>, AllocError>
    ensures { IfOk result (λ w. literals_of w.items ≡ zeros (literals_of a.now)) }
{
    let mut word = Vec::new(alloc);
    for _ in a {
        word.push(falsity())?;
    }
    Ok(word)
}

/// The top bit.
pub fn top(a: &[Lit]) -> Lit
    ensures { literal_of result ≡ top (literals_of a.now) }
{
    match a.last() {
        Some(bit) => *bit,
        None => falsity(),
    }
}

/// The word with its top bit negated.
pub fn top_negated(alloc: Global, a: &[Lit]) -> Result<Vec<Lit>, AllocError>
    ensures { IfOk result (λ w. literals_of w.items ≡ top_negated (literals_of a.now)) }
{
    let mut word = Vec::new(alloc);
    for i in 0..a.len() {
        word.push(if i + 1 == a.len() {
            negated(a[i])
        } else {
            a[i]
        })?;
    }
    Ok(word)
}

/// So many bits of a word, filled up with this literal.
pub fn resized(alloc: Global, width: usize, fill: Lit, a: &[Lit]) -> Result<Vec<Lit>, AllocError>
    ensures { IfOk result (λ w. literals_of w.items ≡ resized width (literal_of fill) (literals_of a.now)) }
{
    let mut word = Vec::new(alloc);
    for i in 0..width {
        word.push(bit_or(a, i, fill))?;
    }
    Ok(word)
}

/// The bit of this number, or the other literal.
fn bit_or(a: &[Lit], i: usize, fill: Lit) -> Lit
    ensures { result ≡ slice_index_or a.now i fill }
{
    match a.get(i) {
        Some(bit) => *bit,
        None => fill,
    }
}

/// The literal by which a word is extended.
pub fn filling(signed: bool, a: &[Lit]) -> Lit
    ensures { literal_of result ≡ filling signed (literals_of a.now) }
{
    if signed { top(a) } else { falsity() }
}

/// So many bits of a word that has a sign or not.
pub fn extended(
    alloc: Global,
    width: usize,
    signed: bool,
    a: &[Lit],
) -> Result<Vec<Lit>, AllocError>
    ensures { IfOk result (λ w. literals_of w.items ≡ extended width signed (literals_of a.now)) }
{
    resized(alloc, width, filling(signed, a), a)
}

fn literal_if(b: bool) -> Lit
    ensures { literal_of result ≡ literal_if b }
{
    if b { truth() } else { falsity() }
}

/// The lowest bits of a number.
fn digits(alloc: Global, width: usize, number: u128) -> Result<Vec<Lit>, AllocError>
    ensures { IfOk result (λ w. literals_of w.items ≡ digits width number) }
{
    let mut word = Vec::new(alloc);
    let mut left = number;
    for i in 0..width {
        word.push(literal_if(left % 2 == 1))?;
        left /= 2;
    }
    Ok(word)
}

/// The lowest bits of a whole number in two's complement.
pub fn constant(alloc: Global, width: usize, number: i128) -> Result<Vec<Lit>, AllocError>
    ensures { IfOk result (λ w. literals_of w.items ≡ constant width number) }
{
    if number >= 0 {
        digits(alloc, width, number as u128)
    } else {
        let word = digits(alloc, width, (-1 - number) as u128)?;
        negated_word(alloc, &word)
    }
}

/// A truth value as a word.
pub fn truth_word(alloc: Global, l: Lit) -> Result<Vec<Lit>, AllocError>
    ensures { IfOk result (λ w. literals_of w.items ≡ truth_word (literal_of l)) }
{
    resized(alloc, 32, falsity(), &[l])
}
