// Choices and arrivals at heads, as literals and words.
ghost use Rattle.std.specs.Prelude.{◌≡◌, ◌++◌, map, IfOk, OnOk};
ghost use Rattle.l2_code.specs.Sets.{family};
ghost use Rattle.l2_gates.specs.Gates.{literals_of};
ghost use Rattle.l2_ssa.specs.Views.{steps_of};
ghost use Rattle.l2_blast.specs.Words.{literal};
ghost use Rattle.l2_short_goals.specs.Taken.{choice_of, choices_of};
ghost use Rattle.l2_short_goals.specs.Kept.{kept_take, taken_as, taken_at};

use l2_bits::{List, Ty};
use l2_blast::Words;
use l2_cnf::Lit;
use l2_code::Operand;
use l2_ssa::{Ssa, Step, TakeStep};
use std::alloc::{AllocError, Global};

/// A choice: the path on which it is taken, and the word of its type that it gives, bit 0 first.
#[derive(Drop)]
pub struct Taken {
    pub path: Lit,
    pub word: List<Lit>,
    pub ty: Ty,
}

/// An index as a name; memory has no room for more than 32 bits can number.
fn name(i: usize) -> Result<u32, AllocError>
    ensures { IfOk result (λ m. m ≡ i) }
{
    match u32::try_from(i) {
        Ok(i) => Ok(i),
        Err(_) => Err(AllocError),
    }
}

fn take_of(step: &Step) -> Option<TakeStep>
    ensures { result ≡ kept_take step.now }
{
    match step {
        Step::Choose(_) => None,
        Step::Take(step) => Some(**step),
        Step::Half(_) => None,
        Step::Point(_) => None,
        Step::Among(_) => None,
        Step::Compute(_) => None,
        Step::Alive(_) => None,
        Step::Pick(_) => None,
        Step::Row(_) => None,
        Step::Lower(_) => None,
        Step::Apart(_) => None,
        Step::Both(_) => None,
        Step::But(_) => None,
        Step::Either(_) => None,
        Step::Merge(_) => None,
    }
}

/// The choice of a step, as the name of this index.
fn take(alloc: Global, words: &Words, step: TakeStep, i: usize) -> Result<Taken, AllocError>
    ensures { IfOk result (λ t. choice_of t ≡ taken_as words.now i step) }
{
    let path = words.literal(step.path);
    let i = name(i)?;
    let mut word = Vec::new(alloc);
    word.extend_from_slice(words.bits(i))?;
    Ok(Taken {
        path,
        word: List::new(word),
        ty: step.ty,
    })
}

fn push_taken(
    alloc: Global,
    words: &Words,
    all: &mut Vec<Taken>,
    step: Option<TakeStep>,
    i: usize,
) -> Result<(), AllocError>
    ensures { OnOk result (map choice_of all.new.items ≡ map choice_of all.old.items ++ taken_at words.now i step) }
{
    match step {
        None => Ok(()),
        Some(step) => {
            let taken = take(alloc, words, step, i)?;
            all.push(taken)?;
            Ok(())
        }
    }
}

/// The choices of equations over the words of their names.
pub fn all_taken(alloc: Global, words: &Words, ssa: &Ssa) -> Result<Vec<Taken>, AllocError>
    ensures { IfOk result (λ all. map choice_of all.items ≡ choices_of words.now 0 (steps_of (family ssa.now.sets.now) ssa.now.steps.items)) }
{
    let mut all = Vec::new(alloc);
    for i in 0..ssa.steps.len() {
        let step = take_of(&ssa.steps[i]);
        push_taken(alloc, words, &mut all, step, i)?;
    }
    Ok(all)
}

/// The literals of these truth values.
pub fn literals(alloc: Global, words: &Words, operands: &[Operand]) -> Result<Vec<Lit>, AllocError>
    ensures { IfOk result (λ all. literals_of all.items ≡ map (literal words.now) operands.now) }
{
    let mut all = Vec::new(alloc);
    for operand in operands {
        let literal = words.literal(*operand);
        all.push(literal)?;
    }
    Ok(all)
}
