// The lists of forms that rank the loops.
ghost use Rattle.std.specs.Prelude.{◌≤◌, IfOk};
ghost use Rattle.l2_engine.specs.Tasks.{AreRanksOf, IsStrongestIn};

use crate::task::Task;
use l2_templates::{Point, Ranks};
use l2_turn_engine::ranks_at;
use std::alloc::{AllocError, Global};

/// The greedy lists of all loops at the strongest point; `None` where some loop has none.
pub fn loop_ranks(
    alloc: Global,
    task: &Task<'_>,
    k: u32,
    point: &Point,
) -> Result<Option<Ranks>, AllocError>
    requires some { 1 ≤ k }
    requires strongest { IsStrongestIn task.now k point.now }
    ensures { IfOk result (λ r. AreRanksOf task.now k point.now r) }
{
    let cut = task.cut(k);
    ranks_at(alloc, cut, point, task.loops())
}
