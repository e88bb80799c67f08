// Where the goals of a point's rows stand.
ghost use Rattle.std.specs.Prelude.{◌≡◌, ◌≤◌, ◌<◌, ◌+◌, ℕ, IfOk, Some, length, slice_get};
ghost use Rattle.l2_ssa.specs.Walks.{RowGoal};
ghost use Rattle.l2_ssa_points.specs.Goals.{loop_goals, row_goals};
ghost use Rattle.l2_row_engine.specs.Indexes.{goal_count, goals_before};

use l2_strategy::BrokenRow;
use l2_templates::{LoopPoint, Point};
use std::alloc::AllocError;

/// The number of what has this index; memory has no room for more than 32 bits can number.
fn number(i: usize) -> Result<u32, AllocError>
    ensures { IfOk result (λ n. n ≡ i + 1) }
{
    match u32::try_from(i) {
        Ok(index) => match index.checked_add(1) {
            Some(number) => Ok(number),
            None => Err(AllocError),
        },
        Err(_) => Err(AllocError),
    }
}

fn goal_count(at: &LoopPoint) -> usize
    ensures { result ≡ goal_count at.now }
{
    match at {
        LoopPoint::Bottom => 1,
        LoopPoint::Rows(rows) => rows.len(),
    }
}

/// The row of this index among a loop's.
fn row_of(at: &LoopPoint, i: usize) -> Result<u32, AllocError>
    requires { i < goal_count at.now }
    ensures { (l : ℕ) → IfOk result (λ row. slice_get (loop_goals l at.now) i ≡ Some (RowGoal l row)) }
{
    match at {
        LoopPoint::Bottom => Ok(0),
        LoopPoint::Rows(_) => number(i),
    }
}

/// The loop and row of the row goal of this index.
pub fn broken_at(point: &Point, i: usize) -> Result<BrokenRow, AllocError>
    requires { i < length (row_goals 1 point.now) }
    ensures { IfOk result (λ b. slice_get (row_goals 1 point.now) i ≡ Some (RowGoal b.at b.row)) }
{
    let mut left = i;
    for l in 0..point.len() {
        let at = point.get(l);
        let count = goal_count(at);
        if left < count {
            let row = row_of(at, left)?;
            return Ok(BrokenRow {
                at: number(l)?,
                row,
            });
        }
        left -= count;
    }
    Err(AllocError)
}

/// How many goals stand before those of the loop of this index.
pub fn goals_before(point: &Point, l: usize) -> Result<usize, AllocError>
    requires { l ≤ length point.now }
    ensures { IfOk result (λ n. n ≡ goals_before point.now l) }
{
    let mut before: usize = 0;
    for i in 0..l {
        let count = goal_count(point.get(i));
        match before.checked_add(count) {
            Some(more) => before = more,
            None => return Err(AllocError),
        }
    }
    Ok(before)
}
