ghost use Rattle.std.specs.Prelude.{◌≡◌, IfOk, map};
ghost use Rattle.l2_templates.specs.Points.{AreAlike, HaveSameForms, meet, meet_bound, meet_loop, meet_rows};

use crate::form::Row;
use crate::lists::{Point, RowList};
use crate::point::LoopPoint;
use std::alloc::{AllocError, Global};

fn meet_bound(a: Option<i128>, b: Option<i128>) -> Option<i128>
    ensures { result ≡ meet_bound a b }
{
    match (a, b) {
        (None, _) => b,
        (Some(_), None) => a,
        (Some(x), Some(y)) => Some(x.min(y)),
    }
}

fn meet_rows(alloc: Global, a: &[Row], b: &[Row]) -> Result<RowList, AllocError>
    ensures { IfOk result (λ rows. rows ≡ meet_rows a.now b.now) }
{
    let mut all = RowList::new(alloc);
    let mut i = 0;
    while i < a.len() && i < b.len() {
        all.push(a[i].form, meet_bound(a[i].bound, b[i].bound))?;
        i += 1;
    }
    Ok(all)
}

fn meet_loop(alloc: Global, a: &LoopPoint, b: &LoopPoint) -> Result<LoopPoint, AllocError>
    ensures { IfOk result (λ at. at ≡ meet_loop a.now b.now) }
{
    match (a, b) {
        (LoopPoint::Rows(first), LoopPoint::Rows(second)) => {
            let rows = meet_rows(alloc, first.as_slice(), second.as_slice())?;
            Ok(LoopPoint::Rows(rows))
        }
        _ => Ok(LoopPoint::Bottom),
    }
}

/// The weakest point that is at least as strong as both: for each row the smaller bound, and `Bottom` where one of the
/// two has it.
pub fn meet(alloc: Global, a: &Point, b: &Point) -> Result<Point, AllocError>
    requires { AreAlike a.now b.now }
    ensures { IfOk result (λ p. p ≡ meet a.now b.now) }
{
    let mut all = Point::new(alloc);
    for i in 0..a.len() {
        let at = meet_loop(alloc, a.get(i), b.get(i))?;
        all.push(at)?;
    }
    Ok(all)
}
