ghost use Rattle.std.specs.Prelude.{◌≡◌, [], drop, IfOk, OnOk};
ghost use Rattle.l2_code.specs.Trees.{code_of};
ghost use Rattle.l2_code.specs.Sets.{family};
ghost use Rattle.l2_ssa.specs.Views.{steps_of};
ghost use Rattle.l2_blast.specs.Blasting.{blast};
ghost use Rattle.l2_blast.specs.Kept.{setting_of};

use crate::computing::Place;
use crate::fill::Fill;
use crate::sorts::sort_of;
use crate::stepping::word_of;
use crate::words::Words;
use l2_code::Code;
use l2_gates::Gates;
use l2_ssa::Ssa;
use std::alloc::{AllocError, Global};

/// The words of the names of a code's equations, whose circuits are added to the gates. The fill says what rows and rankings are.
pub fn blast<F: Fill>(
    alloc: Global,
    code: &Code,
    ssa: &Ssa,
    fill: &F,
    gates: &mut Gates,
) -> Result<Words, AllocError>
    ensures env { IfOk result (λ w. w ≡ (blast (setting_of (code_of code.now) (F.fill fill.now)) (steps_of (family ssa.now.sets.now) ssa.now.steps.items) [] gates.old).env) }
    ensures made { OnOk result (gates.new ≡ (blast (setting_of (code_of code.now) (F.fill fill.now)) (steps_of (family ssa.now.sets.now) ssa.now.steps.items) [] gates.old).made) }
{
    let mut words = Words::new(alloc);
    for step in ssa.steps.as_slice() {
        let place = Place {
            code,
            sets: ssa.sets,
            words: &words,
        };
        let word = word_of(alloc, gates, fill, &place, step)?;
        let sort = sort_of(step, ssa.sets);
        words.push(sort, word)?;
    }
    Ok(words)
}
