ghost use Rattle.std.specs.Prelude.{◌≡◌, ◌↔◌, ◌≤◌, ◌<◌, ◌+◌, ℕ, IfOk, IsTrue, MatchOption, length};
ghost use Rattle.l2_runs.specs.declared.outcome.Outcome.TheVariants.{Broken};
ghost use Rattle.l2_runs.specs.Runs.{Over, Fallen};
ghost use Rattle.l2_templates.specs.declared.point.LoopPoint.{LoopPoint};
ghost use Rattle.l2_program.specs.Programs.{program_tree};
ghost use Rattle.l2_code.specs.Sets.{family};
ghost use Rattle.l2_cuts.specs.Cuts.{Infers};
ghost use Rattle.l2_templates.specs.Points.{loop_at};
ghost use Rattle.l2_strategy.specs.Asking.{IsAskable, IsFailed};
ghost use Rattle.l2_row_laws.specs.Exceeding.{Exceeds};
ghost use Rattle.l2_row_engine.specs.Cutting.{Ends};
ghost use Rattle.l2_row_engine.specs.Indexes.{first_row, goal_count};

use crate::cut::Cut;
use crate::indexes::{broken_at, goals_before};
use crate::points::with_front;
use l2_front_laws::laws::{bottom_law, raised_law};
use l2_missed::Shared;
use l2_row_laws::laws::row_law;
use l2_strategy::BrokenRow;
use l2_templates::{LoopPoint, Point, Row, RowList};
use std::alloc::{AllocError, Global};

/// A row that some run of the point fails, where there is one.
pub fn failed_row(
    alloc: Global,
    cut: &Cut<'_>,
    point: &Point,
) -> Result<Option<BrokenRow>, AllocError>
    ensures { IfOk result (λ r. MatchOption r (Infers (program_tree cut.now.program) (family cut.now.sets).object cut.now.copies point.now)
        (λ b. IsFailed (Exceeds (program_tree cut.now.program) (family cut.now.sets).object cut.now.copies point.now) point.now b.at b.row)) }
{
    row_law();
    let goals = cut.formulas(alloc, point)?;
    let rows = goals_before(point, point.len())?;
    let mut shared = Shared::new(alloc, &goals.base)?;
    match shared.first_met(&goals.last, 0, rows as u64)? {
        None => Ok(None),
        Some(met) => Ok(Some(broken_at(point, met.index as usize)?)),
    }
}

/// Whether some run fails the first row of the loop of an index, or comes to the end of its turn where it is at Bottom.
fn fails_first(alloc: Global, cut: &Cut<'_>, point: &Point, l: usize) -> Result<bool, AllocError>
    requires inside { l < length point.now }
    requires some { 1 ≤ goal_count (loop_at point.now l) }
    ensures { IfOk result (λ fails. IsTrue fails ↔ Ends (program_tree cut.now.program) (family cut.now.sets).object cut.now.copies point.now (Fallen (l + 1) (first_row (loop_at point.now l)))) }
{
    let goals = cut.formulas(alloc, point)?;
    let i = goals_before(point, l)?;
    let mut shared = Shared::new(alloc, &goals.base)?;
    shared.meets(goals.last.clause(i as u64))
}

/// Whether some run exceeds this number at a row of the loop of an index.
fn exceeds_in(
    alloc: Global,
    cut: &Cut<'_>,
    point: &Point,
    l: usize,
    row: u32,
    rows: &RowList,
    above: i128,
) -> Result<bool, AllocError>
    requires inside { l < length point.now }
    requires at { loop_at point.now l ≡ LoopPoint.Rows rows.now }
    requires askable { IsAskable point.now (l + 1) row above }
    ensures { IfOk result (λ found. IsTrue found ↔ Exceeds (program_tree cut.now.program) (family cut.now.sets).object cut.now.copies point.now (l + 1) row above) }
{
    raised_law();
    let (form, _bound) = rows.get(row as usize - 1);
    let bound = Some(above);
    let raised = with_front(alloc, point, l, Row { form, bound })?;
    fails_first(alloc, cut, &raised, l)
}

/// Whether some run exceeds this number at a row, which isn't below the row's bound; or comes to the end of a turn of a loop at Bottom,
/// whose one row has the number 0. The search asks about no other; there is no answer about those.
pub fn exceeds(
    alloc: Global,
    cut: &Cut<'_>,
    point: &Point,
    broken: BrokenRow,
    above: i128,
) -> Result<bool, AllocError>
    requires { IsAskable point.now broken.at broken.row above }
    ensures { IfOk result (λ found. IsTrue found ↔ Exceeds (program_tree cut.now.program) (family cut.now.sets).object cut.now.copies point.now broken.at broken.row above) }
{
    bottom_law();
    let l = broken.at as usize - 1;
    match point.get(l) {
        LoopPoint::Rows(rows) => exceeds_in(alloc, cut, point, l, broken.row, rows, above),
        LoopPoint::Bottom => {
            if broken.row == 0 {
                fails_first(alloc, cut, point, l)
            } else {
                Err(AllocError)
            }
        }
    }
}

/// Whether some run of the point breaks a check.
pub fn breaks_check(alloc: Global, cut: &Cut<'_>, point: &Point) -> Result<bool, AllocError>
    ensures { IfOk result (λ breaks. IsTrue breaks ↔ ((c : ℕ) × Ends (program_tree cut.now.program) (family cut.now.sets).object cut.now.copies point.now (Over (Broken c)))) }
{
    let goals = cut.formulas(alloc, point)?;
    let rows = goals_before(point, point.len())?;
    let mut shared = Shared::new(alloc, &goals.base)?;
    let first = shared.first_met(&goals.last, rows as u64, goals.last.len())?;
    Ok(first.is_some())
}
