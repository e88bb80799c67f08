// What a point says of each loop, in numbers.
ghost use Rattle.std.specs.Prelude.{◌≡◌, ◌+◌, ◌++◌, ◌∷◌, [], IfOk, OnOk, map};
ghost use Rattle.l2_goals.specs.Kept.{kept_kind, kept_kinds};
ghost use Rattle.l2_goals.specs.Numbers.{row_count, row_counts};

use l2_ssa::Kind;
use l2_templates::{LoopPoint, Point};
use std::alloc::{AllocError, Global};

/// A length or an index; memory has no room for more than 32 bits can number.
pub fn small(n: usize) -> Result<u32, AllocError>
    ensures { IfOk result (λ m. m ≡ n) }
{
    match u32::try_from(n) {
        Ok(n) => Ok(n),
        Err(_) => Err(AllocError),
    }
}

/// The number of what has this index.
pub fn number(i: usize) -> Result<u32, AllocError>
    ensures { IfOk result (λ n. n ≡ i + 1) }
{
    let index = small(i)?;
    match index.checked_add(1) {
        Some(number) => Ok(number),
        None => Err(AllocError),
    }
}

fn row_count(at: &LoopPoint) -> Result<u32, AllocError>
    ensures { IfOk result (λ n. n ≡ row_count at.now) }
{
    match at {
        LoopPoint::Bottom => Ok(0),
        LoopPoint::Rows(rows) => small(rows.len()),
    }
}

/// How many rows each loop has.
pub fn row_counts(alloc: Global, point: &Point) -> Result<Vec<u32>, AllocError>
    ensures { IfOk result (λ counts. counts.items ≡ row_counts point.now) }
{
    let mut counts = Vec::new(alloc);
    for i in 0..point.len() {
        let count = row_count(point.get(i))?;
        counts.push(count)?;
    }
    Ok(counts)
}

fn kind(at: &LoopPoint) -> Result<Kind, AllocError>
    ensures { IfOk result (λ k. k ≡ kept_kind at.now) }
{
    match at {
        LoopPoint::Bottom => Ok(Kind::Bottom),
        LoopPoint::Rows(rows) => {
            let count = small(rows.len())?;
            Ok(Kind::Rows(count))
        }
    }
}

/// What each loop is to the walk.
pub fn kinds(alloc: Global, point: &Point) -> Result<Vec<Kind>, AllocError>
    ensures { IfOk result (λ kinds. kinds.items ≡ kept_kinds point.now) }
{
    let mut kinds = Vec::new(alloc);
    for i in 0..point.len() {
        let kind = kind(point.get(i))?;
        kinds.push(kind)?;
    }
    Ok(kinds)
}
