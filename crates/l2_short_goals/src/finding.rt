// The choices and turns of a model.
ghost use Rattle.std.specs.Prelude.{◌≡◌, IfOk, map};
ghost use Rattle.l2_gates.specs.Gates.{literal_of, literals_of};
ghost use Rattle.l2_gates.specs.Models.{value};
ghost use Rattle.l2_circuit_laws.specs.Values.{values, number, bit_number};
ghost use Rattle.l2_short_goals.specs.Taken.{choice_of, values_of, shown, made_choices, count_true};

use crate::making::ShortGoals;
use crate::taking::Taken;
use l2_bits::{List, wrap};
use l2_cnf::{Assignment, Lit};
use l2_code::{Code, Sets};
use l2_templates::Found;
use std::alloc::{AllocError, Global};

/// Whether a literal is true, where a variable without a value is false.
fn is_true(a: &Assignment, literal: Lit) -> bool
    ensures { result ≡ value (values_of a.now) (literal_of literal) }
{
    let set = match a.get(literal.var()) {
        Some(value) => value,
        None => false,
    };
    if literal.is_positive() { set } else { !set }
}

fn bit(a: &Assignment, literal: Lit) -> u64
    ensures { result ≡ bit_number (value (values_of a.now) (literal_of literal)) }
{
    if is_true(a, literal) { 1 } else { 0 }
}

/// A word as a number without a sign; one that 64 bits don't hold is want of memory.
fn number(a: &Assignment, bits: &[Lit]) -> Result<u64, AllocError>
    ensures { IfOk result (λ n. n ≡ number (values (values_of a.now) (literals_of bits.now))) }
{
    let mut total: u64 = 0;
    let mut i = bits.len();
    while i > 0 {
        i -= 1;
        let Some(twice) = total.checked_mul(2) else {
            return Err(AllocError);
        };
        let Some(more) = twice.checked_add(bit(a, bits[i])) else {
            return Err(AllocError);
        };
        total = more;
    }
    Ok(total)
}

fn shown(a: &Assignment, taken: &Taken) -> Result<i128, AllocError>
    ensures { IfOk result (λ z. z ≡ shown (values_of a.now) (choice_of taken.now)) }
{
    let number = number(a, taken.word.as_slice())?;
    Ok(wrap(taken.ty, i128::from(number)))
}

/// The values of the choices whose paths are true, in order.
fn choices(alloc: Global, a: &Assignment, all: &[Taken]) -> Result<Vec<i128>, AllocError>
    ensures { IfOk result (λ v. v.items ≡ made_choices (values_of a.now) (map choice_of all.now)) }
{
    let mut made = Vec::new(alloc);
    for taken in all {
        if is_true(a, taken.path) {
            made.push(shown(a, taken)?)?;
        }
    }
    Ok(made)
}

/// How many of these are true; more than 64 bits count is want of memory.
fn count_true(a: &Assignment, literals: &[Lit]) -> Result<u64, AllocError>
    ensures { IfOk result (λ n. n ≡ count_true (values_of a.now) (literals_of literals.now)) }
{
    let mut count: u64 = 0;
    for literal in literals {
        if is_true(a, *literal) {
            let Some(more) = count.checked_add(1) else {
                return Err(AllocError);
            };
            count = more;
        }
    }
    Ok(count)
}

impl ShortGoals {
    /// The choices and turns that an assignment shows, as those of an execution that breaks a check. The code and the sets are those
    /// that the formulas were made of.
    pub fn found(
        &self,
        alloc: Global,
        _code: &Code,
        _sets: &Sets,
        a: &Assignment,
        check: u32,
    ) -> Result<Found, AllocError>
        ensures choices { IfOk result (λ r. r.choices ≡ made_choices (values_of a.now) (map choice_of self.now.taken)) }
        ensures turns { IfOk result (λ r. r.turns ≡ count_true (values_of a.now) (literals_of self.now.heads)) }
        ensures check { IfOk result (λ r. r.check ≡ check) }
    {
        let choices = choices(alloc, a, self.taken.as_slice())?;
        let turns = count_true(a, self.heads.as_slice())?;
        Ok(Found {
            choices: List::new(choices),
            turns,
            check,
        })
    }
}
