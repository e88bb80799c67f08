// Where the goals of rankings stand.
ghost use Rattle.std.specs.Prelude.{◌≡◌, ◌≤◌, IfOk, length};
ghost use Rattle.l2_turn_engine.specs.Lists.{rank_count, rank_index, ranks_before};

use l2_row_engine::goals_before;
use l2_templates::{LoopPoint, Point};
use std::alloc::AllocError;

/// How many goals a loop's ranking has.
pub fn rank_count(at: &LoopPoint) -> usize
    ensures { result ≡ rank_count at.now }
{
    match at {
        LoopPoint::Bottom => 0,
        LoopPoint::Rows(_) => 1,
    }
}

fn ranks_before(point: &Point, l: usize) -> Result<usize, AllocError>
    requires { l ≤ length point.now }
    ensures { IfOk result (λ n. n ≡ ranks_before point.now l) }
{
    let mut before: usize = 0;
    for i in 0..l {
        let count = rank_count(point.get(i));
        match before.checked_add(count) {
            Some(more) => before = more,
            None => return Err(AllocError),
        }
    }
    Ok(before)
}

/// The index of the goal of the ranking of the loop of an index.
pub fn rank_index(point: &Point, l: usize) -> Result<usize, AllocError>
    requires { l ≤ length point.now }
    ensures { IfOk result (λ n. n ≡ rank_index point.now l) }
{
    let rows = goals_before(point, point.len())?;
    let ranks = ranks_before(point, l)?;
    match rows.checked_add(ranks) {
        Some(index) => Ok(index),
        None => Err(AllocError),
    }
}
