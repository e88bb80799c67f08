// Whether a file can spell points and rankings.
ghost use Rattle.std.specs.Prelude.{◌≡◌, ◌<◌, ◌^◌, IsTrue, length};
ghost use Rattle.std.specs.List.{All};
ghost use Rattle.l2_cert.specs.Certificate.{AreRankings, IsForm, IsLoop, IsRanking, IsRow};

use l2_templates::{Form, LoopPoint, Point, Ranks, Row};

const LEAST_BOUND: i128 = -(1 << 64) - 1;

const MOST_BOUND: i128 = 1 << 64;

/// Whether numbers of 32 bits can count so many.
fn is_few(n: usize) -> bool
    ensures { IsTrue result → n < 2 ^ 32 }
{
    u32::try_from(n).is_ok()
}

fn is_form(f: Form) -> bool
    ensures { IsTrue result → IsForm f }
{
    f.first > 0
        && if f.second == 0 {
            f.second_plus
        } else {
            f.first < f.second
        }
}

fn are_forms(forms: &[Form]) -> bool
    ensures { IsTrue result → All IsForm forms.now }
{
    for i in 0..forms.len() {
        if !is_form(forms[i]) {
            return false;
        }
    }
    true
}

fn is_row(row: Row) -> bool
    ensures { IsTrue result → IsRow row }
{
    match row.bound {
        None => false,
        Some(bound) => LEAST_BOUND <= bound && bound <= MOST_BOUND && is_form(row.form),
    }
}

fn are_rows(rows: &[Row]) -> bool
    ensures { IsTrue result → All IsRow rows.now }
{
    for i in 0..rows.len() {
        if !is_row(rows[i]) {
            return false;
        }
    }
    true
}

fn is_loop(at: &LoopPoint) -> bool
    ensures { IsTrue result → IsLoop at.now }
{
    match at {
        LoopPoint::Bottom => true,
        LoopPoint::Rows(rows) => is_few(rows.len()) && are_rows(rows.as_slice()),
    }
}

/// Whether the lines of a point's loops can be spelt.
pub fn are_loops(point: &Point) -> bool
    ensures loops { IsTrue result → All IsLoop point.now }
    ensures few { IsTrue result → length point.now < 2 ^ 32 }
{
    for i in 0..point.len() {
        if !is_loop(point.get(i)) {
            return false;
        }
    }
    is_few(point.len())
}

/// Where nothing is at the head nothing goes down.
fn may_rank(at: &LoopPoint, forms: &[Form]) -> bool
    ensures { IsTrue result → IsRanking at.now forms.now }
{
    if !is_few(forms.len()) || !are_forms(forms) {
        return false;
    }
    match at {
        LoopPoint::Bottom => forms.is_empty(),
        LoopPoint::Rows(_) => true,
    }
}

/// Whether the lines of rankings can be spelt behind those of a point's loops.
pub fn are_rankings(point: &Point, ranks: &Ranks) -> bool
    ensures { IsTrue result → AreRankings point.now ranks.now }
{
    if ranks.len() != point.len() {
        return false;
    }
    for i in 0..point.len() {
        if !may_rank(point.get(i), ranks.get(i)) {
            return false;
        }
    }
    true
}
