// What a point is to the walk, and points with one more row.
ghost use Rattle.std.specs.Prelude.{◌≡◌, ◌<◌, ◌++◌, IfOk, OnOk, length, suc};
ghost use Rattle.l2_templates.specs.Points.{loop_at};
ghost use Rattle.l2_row_engine.specs.Fronts.{behind};
ghost use Rattle.l2_goals.specs.Kept.{kept_kind, kept_kinds};
ghost use Rattle.l2_front_laws.specs.Front.{in_front, with_front};

use l2_ssa::Kind;
use l2_templates::{LoopPoint, Point, Row, RowList};
use std::alloc::{AllocError, Global};

fn push_rows(list: &mut RowList, rows: &[Row]) -> Result<(), AllocError>
    ensures { OnOk result (list.new ≡ list.old ++ rows.now) }
{
    for row in rows {
        list.push(row.form, row.bound)?;
    }
    Ok(())
}

/// The same rows once more, behind these.
fn rows_behind(mut first: RowList, at: &LoopPoint) -> Result<LoopPoint, AllocError>
    ensures { IfOk result (λ q. q ≡ behind first at.now) }
{
    match at {
        LoopPoint::Bottom => Ok(LoopPoint::Bottom),
        LoopPoint::Rows(rows) => {
            push_rows(&mut first, rows.as_slice())?;
            Ok(LoopPoint::Rows(first))
        }
    }
}

fn copy(alloc: Global, at: &LoopPoint) -> Result<LoopPoint, AllocError>
    ensures { IfOk result (λ q. q ≡ at.now) }
{
    rows_behind(RowList::new(alloc), at)
}

fn in_front(alloc: Global, row: Row, at: &LoopPoint) -> Result<LoopPoint, AllocError>
    ensures { IfOk result (λ q. q ≡ in_front row at.now) }
{
    let mut first = RowList::new(alloc);
    first.push(row.form, row.bound)?;
    rows_behind(first, at)
}

/// The loop of an index of the point with this row in front of those of a loop.
fn next_at(
    alloc: Global,
    point: &Point,
    i: usize,
    l: usize,
    row: Row,
) -> Result<LoopPoint, AllocError>
    requires inside { i < length point.now }
    ensures { IfOk result (λ q. q ≡ loop_at (with_front point.now (suc l) row) i) }
{
    let at = point.get(i);
    if i == l {
        in_front(alloc, row, at)
    } else {
        copy(alloc, at)
    }
}

/// The point with this row in front of those of the loop of an index.
pub fn with_front(alloc: Global, point: &Point, l: usize, row: Row) -> Result<Point, AllocError>
    ensures { IfOk result (λ q. q ≡ with_front point.now (suc l) row) }
{
    let mut all = Point::new(alloc);
    for i in 0..point.len() {
        let next = next_at(alloc, point, i, l, row)?;
        all.push(next)?;
    }
    Ok(all)
}

fn kind(at: &LoopPoint) -> Result<Kind, AllocError>
    ensures { IfOk result (λ k. k ≡ kept_kind at.now) }
{
    match at {
        LoopPoint::Bottom => Ok(Kind::Bottom),
        LoopPoint::Rows(rows) => match u32::try_from(rows.len()) {
            Ok(count) => Ok(Kind::Rows(count)),
            Err(_) => Err(AllocError),
        },
    }
}

/// What each loop is to the walk.
pub fn kinds(alloc: Global, point: &Point) -> Result<Vec<Kind>, AllocError>
    ensures { IfOk result (λ kinds. kinds.items ≡ kept_kinds point.now) }
{
    let mut kinds = Vec::new(alloc);
    for i in 0..point.len() {
        let kind = kind(point.get(i))?;
        kinds.push(kind)?;
    }
    Ok(kinds)
}
