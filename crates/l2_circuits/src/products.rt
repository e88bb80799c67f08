// Products and quotients.
ghost use Rattle.std.specs.Prelude.{◌≡◌, [], ◌∷◌, IfOk, OnOk};
ghost use Rattle.l2_gates.specs.Gates.{literal_of, literals_of};
ghost use Rattle.l2_circuits.specs.Products.{behind, mul, divide_bit, divide_by, divide, turned, divide_signed, quotients};

use crate::columns::Total;
use crate::literals::{falsity, resized, top, zeros};
use crate::words::{choose, sub, sum, where_true};
use l2_cnf::Lit;
use l2_gates::Gates;
use std::alloc::{AllocError, Global};

/// All but the last bit, behind this one.
fn behind(alloc: Global, x: Lit, a: &[Lit]) -> Result<Vec<Lit>, AllocError>
    ensures { IfOk result (λ w. literals_of w.items ≡ behind (literal_of x) (literals_of a.now)) }
{
    let mut word = Vec::new(alloc);
    let mut last = x;
    for bit in a {
        word.push(last)?;
        last = *bit;
    }
    Ok(word)
}

fn copy(alloc: Global, a: &[Lit]) -> Result<Vec<Lit>, AllocError>
    ensures { IfOk result (λ w. literals_of w.items ≡ literals_of a.now) }
{
    let mut word = Vec::new(alloc);
    word.extend_from_slice(a)?;
    Ok(word)
}

/// The product, as long as the first word.
pub fn mul(alloc: Global, gates: &mut Gates, a: &[Lit], b: &[Lit]) -> Result<Vec<Lit>, AllocError>
    ensures bits { IfOk result (λ w. literals_of w.items ≡ (mul (literals_of a.now) (literals_of b.now) gates.old).bits) }
    ensures made { OnOk result (gates.new ≡ (mul (literals_of a.now) (literals_of b.now) gates.old).made) }
{
    let mut product = zeros(alloc, a)?;
    let mut doubled = copy(alloc, a)?;
    for bit in b {
        let part = where_true(alloc, gates, &doubled, *bit)?;
        let total = sum(alloc, gates, &product, &part, falsity())?;
        product = total.bits;
        doubled = behind(alloc, falsity(), &doubled)?;
    }
    Ok(product)
}

/// A quotient and what is left.
#[derive(Drop)]
pub struct Quotient {
    pub quotient: Vec<Lit>,
    pub rest: Vec<Lit>,
}

/// One bit more of the dividend: what is left then, and the bit of the quotient.
fn divide_bit(
    alloc: Global,
    gates: &mut Gates,
    a: Lit,
    b: &[Lit],
    rest: &[Lit],
) -> Result<Total, AllocError>
    ensures bits { IfOk result (λ t. literals_of t.bits.items ≡ (divide_bit (literal_of a) (literals_of b.now) (record { quotient = []; rest = literals_of rest.now; made = gates.old })).rest) }
    ensures carry { IfOk result (λ t. literal_of t.carry ∷ [] ≡ (divide_bit (literal_of a) (literals_of b.now) (record { quotient = []; rest = literals_of rest.now; made = gates.old })).quotient) }
    ensures made { OnOk result (gates.new ≡ (divide_bit (literal_of a) (literals_of b.now) (record { quotient = []; rest = literals_of rest.now; made = gates.old })).made) }
{
    let doubled = behind(alloc, a, rest)?;
    let difference = sub(alloc, gates, &doubled, b)?;
    let bits = choose(alloc, gates, difference.carry, &difference.bits, &doubled)?;
    Ok(Total {
        bits,
        carry: difference.carry,
    })
}

/// The quotient by a divisor that has one bit more, and what is left.
fn divide_by(alloc: Global, gates: &mut Gates, a: &[Lit], b: &[Lit]) -> Result<Quotient, AllocError>
    ensures quotient { IfOk result (λ d. literals_of d.quotient.items ≡ (divide_by (literals_of a.now) (literals_of b.now) gates.old).quotient) }
    ensures rest { IfOk result (λ d. literals_of d.rest.items ≡ (divide_by (literals_of a.now) (literals_of b.now) gates.old).rest) }
    ensures made { OnOk result (gates.new ≡ (divide_by (literals_of a.now) (literals_of b.now) gates.old).made) }
{
    let mut quotient = Vec::new(alloc);
    let mut rest = zeros(alloc, b)?;
    for i in 0..a.len() {
        let left = a.len() - i;
        let next = divide_bit(alloc, gates, a[left - 1], b, &rest)?;
        quotient.push(next.carry)?;
        rest = next.bits;
    }
    quotient.reverse();
    Ok(Quotient { quotient, rest })
}

/// The quotient without signs, and what is left.
#[tactic(auto, using(crate::proofs::Bits::literals_length))]
pub fn divide(
    alloc: Global,
    gates: &mut Gates,
    a: &[Lit],
    b: &[Lit],
) -> Result<Quotient, AllocError>
    ensures quotient { IfOk result (λ d. literals_of d.quotient.items ≡ (divide (literals_of a.now) (literals_of b.now) gates.old).quotient) }
    ensures rest { IfOk result (λ d. literals_of d.rest.items ≡ (divide (literals_of a.now) (literals_of b.now) gates.old).rest) }
    ensures made { OnOk result (gates.new ≡ (divide (literals_of a.now) (literals_of b.now) gates.old).made) }
{
    let wide = resized(alloc, b.len() + 1, falsity(), b)?;
    let parts = divide_by(alloc, gates, a, &wide)?;
    let rest = resized(alloc, a.len(), falsity(), &parts.rest)?;
    Ok(Quotient {
        quotient: parts.quotient,
        rest,
    })
}

/// The negated number where `c` is true.
fn turned(alloc: Global, gates: &mut Gates, c: Lit, a: &[Lit]) -> Result<Vec<Lit>, AllocError>
    ensures bits { IfOk result (λ w. literals_of w.items ≡ (turned (literal_of c) (literals_of a.now) gates.old).bits) }
    ensures made { OnOk result (gates.new ≡ (turned (literal_of c) (literals_of a.now) gates.old).made) }
{
    let none = zeros(alloc, a)?;
    let opposite = sub(alloc, gates, &none, a)?;
    choose(alloc, gates, c, &opposite.bits, a)
}

/// The quotient with signs, truncated towards zero, and what is left.
pub fn divide_signed(
    alloc: Global,
    gates: &mut Gates,
    a: &[Lit],
    b: &[Lit],
) -> Result<Quotient, AllocError>
    ensures quotient { IfOk result (λ d. literals_of d.quotient.items ≡ (divide_signed (literals_of a.now) (literals_of b.now) gates.old).quotient) }
    ensures rest { IfOk result (λ d. literals_of d.rest.items ≡ (divide_signed (literals_of a.now) (literals_of b.now) gates.old).rest) }
    ensures made { OnOk result (gates.new ≡ (divide_signed (literals_of a.now) (literals_of b.now) gates.old).made) }
{
    let x = turned(alloc, gates, top(a), a)?;
    let y = turned(alloc, gates, top(b), b)?;
    let parts = divide(alloc, gates, &x, &y)?;
    let sign = gates.xor(top(a), top(b))?;
    let quotient = turned(alloc, gates, sign, &parts.quotient)?;
    let rest = turned(alloc, gates, top(a), &parts.rest)?;
    Ok(Quotient { quotient, rest })
}

/// The quotient and what is left, of words that have signs or not.
pub fn quotients(
    alloc: Global,
    gates: &mut Gates,
    signed: bool,
    a: &[Lit],
    b: &[Lit],
) -> Result<Quotient, AllocError>
    ensures quotient { IfOk result (λ d. literals_of d.quotient.items ≡ (quotients signed (literals_of a.now) (literals_of b.now) gates.old).quotient) }
    ensures rest { IfOk result (λ d. literals_of d.rest.items ≡ (quotients signed (literals_of a.now) (literals_of b.now) gates.old).rest) }
    ensures made { OnOk result (gates.new ≡ (quotients signed (literals_of a.now) (literals_of b.now) gates.old).made) }
{
    if signed {
        divide_signed(alloc, gates, a, b)
    } else {
        divide(alloc, gates, a, b)
    }
}
