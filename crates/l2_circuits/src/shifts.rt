// Shifts by an amount bit after bit.
ghost use Rattle.std.specs.Prelude.{◌≡◌, drop, IfOk, OnOk};
ghost use Rattle.l2_gates.specs.Gates.{literal_of, literals_of};
ghost use Rattle.l2_circuits.specs.Shifts.{up, down, moved, shift_from, shift_left, shift_right};

use crate::literals::{falsity, filling, resized};
use crate::words::choose;
use l2_cnf::Lit;
use l2_gates::Gates;
use std::alloc::{AllocError, Global};

/// Where a word is moved: up, or down with this literal at the top.
#[derive(Clone, Copy, Debug, PartialEq, Eq)]
pub enum Direction {
    Up,
    Down(Lit),
}

#[tactic(auto, using(crate::proofs::Bits::literals_length, crate::proofs::Bits::literals_drop, crate::proofs::Bits::literals_append))]
fn up(alloc: Global, k: usize, a: &[Lit]) -> Result<Vec<Lit>, AllocError>
    ensures { IfOk result (λ w. literals_of w.items ≡ up k (literals_of a.now)) }
{
    let mut long = Vec::new(alloc);
    for i in 0..k {
        long.push(falsity())?;
    }
    long.extend_from_slice(a)?;
    resized(alloc, a.len(), falsity(), &long)
}

/// The bits behind the first few.
fn behind(a: &[Lit], k: usize) -> &[Lit]
    ensures { result.now ≡ drop k a.now }
{
    if k < a.len() { &a[k..] } else { &[] }
}

fn down(alloc: Global, fill: Lit, k: usize, a: &[Lit]) -> Result<Vec<Lit>, AllocError>
    ensures { IfOk result (λ w. literals_of w.items ≡ down (literal_of fill) k (literals_of a.now)) }
{
    let word = resized(alloc, a.len(), fill, behind(a, k))?;
    Ok(word)
}

fn moved(alloc: Global, way: &Direction, k: usize, a: &[Lit]) -> Result<Vec<Lit>, AllocError>
    ensures { IfOk result (λ w. literals_of w.items ≡ moved way.now k (literals_of a.now)) }
{
    match way {
        Direction::Up => up(alloc, k, a),
        Direction::Down(fill) => down(alloc, *fill, k, a),
    }
}

/// Moves a word by 1, 2, 4 and so on for each bit of the amount that is true, while that is below the width.
#[tactic(auto, using(crate::proofs::Bits::literals_length))]
fn shifted(
    alloc: Global,
    gates: &mut Gates,
    way: &Direction,
    a: &[Lit],
    b: &[Lit],
) -> Result<Vec<Lit>, AllocError>
    ensures bits { IfOk result (λ w. literals_of w.items ≡ (shift_from way.now 1 (literals_of a.now) (literals_of b.now) gates.old).bits) }
    ensures made { OnOk result (gates.new ≡ (shift_from way.now 1 (literals_of a.now) (literals_of b.now) gates.old).made) }
{
    let mut word = Vec::new(alloc);
    word.extend_from_slice(a)?;
    let mut k = 1;
    for bit in b {
        if k >= word.len() {
            return Ok(word);
        }
        let there = moved(alloc, way, k, &word)?;
        word = choose(alloc, gates, *bit, &there, &word)?;
        k += k;
    }
    Ok(word)
}

/// The word times 2 to the power of the amount.
pub fn shift_left(
    alloc: Global,
    gates: &mut Gates,
    a: &[Lit],
    b: &[Lit],
) -> Result<Vec<Lit>, AllocError>
    ensures bits { IfOk result (λ w. literals_of w.items ≡ (shift_left (literals_of a.now) (literals_of b.now) gates.old).bits) }
    ensures made { OnOk result (gates.new ≡ (shift_left (literals_of a.now) (literals_of b.now) gates.old).made) }
{
    shifted(alloc, gates, &Direction::Up, a, b)
}

/// The word divided by 2 to the power of the amount, rounded down.
pub fn shift_right(
    alloc: Global,
    gates: &mut Gates,
    signed: bool,
    a: &[Lit],
    b: &[Lit],
) -> Result<Vec<Lit>, AllocError>
    ensures bits { IfOk result (λ w. literals_of w.items ≡ (shift_right signed (literals_of a.now) (literals_of b.now) gates.old).bits) }
    ensures made { OnOk result (gates.new ≡ (shift_right signed (literals_of a.now) (literals_of b.now) gates.old).made) }
{
    let fill = filling(signed, a);
    shifted(alloc, gates, &Direction::Down(fill), a, b)
}
