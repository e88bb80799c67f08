// Whether a point is one of a code's loops.
ghost use Rattle.std.specs.Prelude.{◌≡◌, None, true, IsTrue, ◌↔◌};
ghost use Rattle.std.specs.Bool.{OnTrue};
ghost use Rattle.std.specs.List.{All};
ghost use Rattle.l2_code.specs.Trees.{code_of};
ghost use Rattle.l2_row_circuits.specs.Law.{IsBound};
ghost use Rattle.l2_templates.specs.Domains.{is_in};
ghost use Rattle.l2_goal_laws.specs.Fits.{AreOf, IsFormOf, IsLoopOf, IsRowOf};
ghost use Rattle.l2_row_engine.specs.Fitting.{AreLoops};

use l2_code::{Code, CodeLoop};
use l2_templates::{Form, LoopPoint, Point, Row};

/// The least and the greatest bound.
const LEAST: i128 = -(1 << 64) - 1;

const MOST: i128 = 1 << 64;

fn is_in(vars: &[u32], variable: u32) -> bool
    ensures { result ≡ is_in vars.now variable }
{
    for var in vars {
        if *var == variable {
            return true;
        }
    }
    false
}

fn is_bound(bound: Option<i128>) -> bool
    ensures { OnTrue result (IsBound bound) }
{
    match bound {
        None => true,
        Some(bound) => LEAST <= bound && bound <= MOST,
    }
}

/// Whether it is a form over these variables.
pub fn is_form(vars: &[u32], form: &Form) -> bool
    ensures { OnTrue result (IsFormOf vars.now form.now) }
{
    if !is_in(vars, form.first) {
        return false;
    }
    if form.second == 0 {
        form.second_plus
    } else {
        is_in(vars, form.second)
    }
}

fn are_rows(vars: &[u32], rows: &[Row]) -> bool
    ensures { OnTrue result (All (IsRowOf vars.now) rows.now) }
{
    for row in rows {
        if !is_form(vars, &row.form) {
            return false;
        }
        if !is_bound(row.bound) {
            return false;
        }
    }
    true
}

fn is_loop(vars: &[u32], at: &LoopPoint) -> bool
    ensures { OnTrue result (IsLoopOf vars.now at.now) }
{
    match at {
        LoopPoint::Bottom => true,
        LoopPoint::Rows(rows) => are_rows(vars, rows.as_slice()),
    }
}

fn are_loops(loops: &[CodeLoop], point: &Point) -> bool
    ensures { OnTrue result (AreLoops loops.now point.now) }
{
    if loops.len() != point.len() {
        return false;
    }
    for i in 0..loops.len() {
        if !is_loop(loops[i].vars.as_slice(), point.get(i)) {
            return false;
        }
    }
    true
}

/// Whether the point's rows are over the variables of the code's loops, with bounds from -2^64 - 1 to 2^64.
pub fn is_point_of(code: &Code, point: &Point) -> bool
    ensures { OnTrue result (AreOf (code_of code.now) point.now None) }
{
    are_loops(code.loops.as_slice(), point)
}
