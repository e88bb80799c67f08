// Short runs that break a check.
ghost use Rattle.std.specs.Prelude.{◌≡◌, ◌≤◌, ◌+◌, IfOk, MatchOption};
ghost use Rattle.l2_engine.specs.Tasks.{IsSomeBreak, SomeBreak, WeighsTooMuch};

use crate::task::Task;
use l2_missed::Shared;
use l2_short_goal_laws::laws::{models_find, runs_have_models};
use l2_templates::Found;
use std::alloc::{AllocError, Global};

/// The number of what has this index; memory has no room for more than 32 bits can number.
fn number(i: u64) -> Result<u32, AllocError>
    ensures { IfOk result (λ n. n ≡ i + 1) }
{
    match u32::try_from(i) {
        Ok(index) => match index.checked_add(1) {
            Some(number) => Ok(number),
            None => Err(AllocError),
        },
        Err(_) => Err(AllocError),
    }
}

/// An execution of at most k arrivals an entry that breaks a check, where there is one.
pub fn short_break(alloc: Global, task: &Task<'_>, k: u32) -> Result<Option<Found>, AllocError>
    requires some { 1 ≤ k }
    requires fits { ¬ WeighsTooMuch task.now k }
    ensures { IfOk result (λ r. MatchOption r (¬ SomeBreak task.now k) (λ f. SomeBreak task.now k × IsSomeBreak task.now k f)) }
{
    models_find();
    runs_have_models();
    let shorts = task.shorts(alloc, k)?;
    let mut shared = Shared::new(alloc, &shorts.goals.base)?;
    let count = shorts.goals.last.len();
    match shared.first_met(&shorts.goals.last, 0, count)? {
        None => Ok(None),
        Some(met) => {
            let check = number(met.index)?;
            let found = shorts.found(alloc, task.code(), task.sets(), &met.values, check)?;
            Ok(Some(found))
        }
    }
}
