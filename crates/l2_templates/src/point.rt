ghost use Rattle.std.specs.Prelude.{◌≡◌, IfOk, length};
ghost use Rattle.std.specs.List.{All, list_all};
ghost use Rattle.l2_templates.specs.Forms.{IsNumber, IsOver, row_holds};
ghost use Rattle.l2_templates.specs.Points.{LoopIsOver, bounded, bounded_loop, holds};

use crate::form::{Row, row_holds};
use crate::lists::{Point, RowList};
use std::alloc::AllocError;

/// What holds at the head of a loop.
#[derive(Debug, Drop)]
pub enum LoopPoint {
    /// Nothing: the loop isn't reached.
    Bottom,
    Rows(RowList),
}

fn all_hold(rows: &[Row], values: &[i128]) -> bool
    requires over { All (λ row. IsOver (length values.now) row.form) rows.now }
    requires values { All IsNumber values.now }
    ensures { result ≡ list_all (λ row. row_holds row values.now) rows.now }
{
    for row in rows {
        if !row_holds(row, values) {
            return false;
        }
    }
    true
}

/// Whether all rows hold at these values, which stand as for `row_value`. At `Bottom` nothing holds.
pub fn holds(p: &LoopPoint, values: &[i128]) -> bool
    requires over { LoopIsOver (length values.now) p.now }
    requires values { All IsNumber values.now }
    ensures { result ≡ holds p.now values.now }
{
    match p {
        LoopPoint::Bottom => false,
        LoopPoint::Rows(rows) => all_hold(rows.as_slice(), values),
    }
}

impl LoopPoint {
    fn keep_bounded(&mut self)
        ensures { self.new ≡ bounded_loop self.old }
    {
        match self {
            LoopPoint::Bottom => {}
            LoopPoint::Rows(rows) => rows.keep_bounded(),
        }
    }

    fn copy(&self) -> Result<LoopPoint, AllocError>
        ensures { IfOk result (λ at. at ≡ self.now) }
    {
        match self {
            LoopPoint::Bottom => Ok(LoopPoint::Bottom),
            LoopPoint::Rows(rows) => Ok(LoopPoint::Rows(rows.copy()?)),
        }
    }
}

impl Point {
    /// The same point once more.
    pub fn copy(&self) -> Result<Point, AllocError>
        ensures { IfOk result (λ p. p ≡ self.now) }
    {
        let mut all = Point::new(self.alloc());
        for i in 0..self.len() {
            let at = self.get(i).copy()?;
            all.push(at)?;
        }
        Ok(all)
    }
}

/// The point without the rows that have no bound.
pub fn bounded(p: Point) -> Point
    ensures { result ≡ bounded p }
{
    let mut loops = p.into_loops();
    for at in loops.iter_mut() {
        at.keep_bounded();
    }
    Point::of_loops(loops)
}
