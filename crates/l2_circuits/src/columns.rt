// Circuits that go through two words bit by bit.
ghost use Rattle.std.specs.Prelude.{◌≡◌, IfOk, OnOk};
ghost use Rattle.l2_gates.specs.Gates.{literal_of, literals_of};
ghost use Rattle.l2_circuits.specs.Words.{handing_on, full_adder, equal_so_far, column, columns};

use crate::literals::negated;
use l2_cnf::Lit;
use l2_gates::Gates;
use std::alloc::{AllocError, Global};

/// What is made of two bits and the literal that is handed from bit to bit.
#[derive(Clone, Copy, Debug, PartialEq, Eq)]
pub enum Kind {
    And,
    Or,
    Xor,
    /// The first bit where the literal is true, else the second.
    Choose,
    /// The first bit where the literal is true.
    Mask,
    /// The sum, with the carry handed on.
    Add,
    /// Whether all bits so far are equal is handed on.
    Equal,
}

/// A bit, and the literal that is handed on.
#[derive(Clone, Copy)]
pub struct Handed {
    sum: Lit,
    carry: Lit,
}

/// A word, and the literal that the last bit hands on.
#[derive(Drop)]
pub struct Total {
    pub bits: Vec<Lit>,
    pub carry: Lit,
}

fn full_adder(gates: &mut Gates, x: Lit, y: Lit, c: Lit) -> Result<Handed, AllocError>
    ensures sum { IfOk result (λ k. literal_of k.sum ≡ (full_adder (literal_of x) (literal_of y) (literal_of c) gates.old).sum) }
    ensures carry { IfOk result (λ k. literal_of k.carry ≡ (full_adder (literal_of x) (literal_of y) (literal_of c) gates.old).carry) }
    ensures made { OnOk result (gates.new ≡ (full_adder (literal_of x) (literal_of y) (literal_of c) gates.old).made) }
{
    let d = gates.xor(x, y)?;
    let sum = gates.xor(d, c)?;
    let p = gates.and(x, y)?;
    let q = gates.and(d, c)?;
    let carry = gates.or(p, q)?;
    Ok(Handed { sum, carry })
}

fn equal_so_far(gates: &mut Gates, x: Lit, y: Lit, e: Lit) -> Result<Handed, AllocError>
    ensures sum { IfOk result (λ k. literal_of k.sum ≡ (equal_so_far (literal_of x) (literal_of y) (literal_of e) gates.old).sum) }
    ensures carry { IfOk result (λ k. literal_of k.carry ≡ (equal_so_far (literal_of x) (literal_of y) (literal_of e) gates.old).carry) }
    ensures made { OnOk result (gates.new ≡ (equal_so_far (literal_of x) (literal_of y) (literal_of e) gates.old).made) }
{
    let sum = gates.xor(x, y)?;
    let carry = gates.and(e, negated(sum))?;
    Ok(Handed { sum, carry })
}

fn column(gates: &mut Gates, kind: Kind, x: Lit, y: Lit, c: Lit) -> Result<Handed, AllocError>
    ensures sum { IfOk result (λ k. literal_of k.sum ≡ (column kind (literal_of x) (literal_of y) (literal_of c) gates.old).sum) }
    ensures carry { IfOk result (λ k. literal_of k.carry ≡ (column kind (literal_of x) (literal_of y) (literal_of c) gates.old).carry) }
    ensures made { OnOk result (gates.new ≡ (column kind (literal_of x) (literal_of y) (literal_of c) gates.old).made) }
{
    match kind {
        Kind::And => {
            let sum = gates.and(x, y)?;
            Ok(Handed { sum, carry: c })
        }
        Kind::Or => {
            let sum = gates.or(x, y)?;
            Ok(Handed { sum, carry: c })
        }
        Kind::Xor => {
            let sum = gates.xor(x, y)?;
            Ok(Handed { sum, carry: c })
        }
        Kind::Choose => {
            let sum = gates.mux(c, x, y)?;
            Ok(Handed { sum, carry: c })
        }
        Kind::Mask => {
            let sum = gates.and(x, c)?;
            Ok(Handed { sum, carry: c })
        }
        Kind::Add => full_adder(gates, x, y, c),
        Kind::Equal => equal_so_far(gates, x, y, c),
    }
}

/// Goes through two words from bit 0 on, as far as both reach, and hands this literal to the first bits.
pub fn columns(
    alloc: Global,
    gates: &mut Gates,
    kind: Kind,
    a: &[Lit],
    b: &[Lit],
    c: Lit,
) -> Result<Total, AllocError>
    ensures bits { IfOk result (λ s. literals_of s.bits.items ≡ (columns kind (literals_of a.now) (literals_of b.now) (literal_of c) gates.old).bits) }
    ensures carry { IfOk result (λ s. literal_of s.carry ≡ (columns kind (literals_of a.now) (literals_of b.now) (literal_of c) gates.old).carry) }
    ensures made { OnOk result (gates.new ≡ (columns kind (literals_of a.now) (literals_of b.now) (literal_of c) gates.old).made) }
{
    let mut bits = Vec::new(alloc);
    let mut carry = c;
    for i in 0..a.len().min(b.len()) {
        let k = column(gates, kind, a[i], b[i], carry)?;
        bits.push(k.sum)?;
        carry = k.carry;
    }
    Ok(Total { bits, carry })
}
