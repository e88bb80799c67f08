// The strongest point, and whether it proves.
ghost use Rattle.std.specs.Prelude.{◌≡◌, ◌↔◌, ◌≤◌, IfOk, IsTrue};
ghost use Rattle.l2_engine.specs.Tasks.{IsStrongestIn, ProvesAt};

use crate::task::Task;
use l2_row_engine::{RowEngine, breaks_check};
use l2_strategy::strongest;
use l2_templates::Point;
use std::alloc::{AllocError, Global};

/// The strongest point of the task's forms and bounds that infers.
pub fn strongest_point(alloc: Global, task: &Task<'_>, k: u32) -> Result<Point, AllocError>
    requires { 1 ≤ k }
    ensures { IfOk result (λ q. IsStrongestIn task.now k q) }
{
    let cut = task.cut(k);
    let mut engine = RowEngine::new(cut);
    strongest(alloc, &mut engine, task.forms(), task.bounds())
}

/// Whether the strongest point proves.
pub fn point_proves(
    alloc: Global,
    task: &Task<'_>,
    k: u32,
    point: &Point,
) -> Result<bool, AllocError>
    requires some { 1 ≤ k }
    requires strongest { IsStrongestIn task.now k point.now }
    ensures { IfOk result (λ proved. IsTrue proved ↔ ProvesAt task.now k point.now) }
{
    let cut = task.cut(k);
    let breaks = breaks_check(alloc, &cut, point)?;
    Ok(!breaks)
}
