ghost use Rattle.std.specs.Prelude.{◌≡◌, ◌↔◌, ◌≤◌, ◌<◌, IfOk, IsTrue, MatchOption, length, suc};
ghost use Rattle.l2_templates.specs.declared.point.LoopPoint.TheVariants.{Bottom};
ghost use Rattle.l2_program.specs.Programs.{program_tree};
ghost use Rattle.l2_code.specs.Sets.{family};
ghost use Rattle.l2_cuts.specs.Points.{point_at};
ghost use Rattle.l2_rank_laws.specs.Moves.{SomeMove, SomeStay};
ghost use Rattle.l2_missed.specs.Meeting.{IsMet};
ghost use Rattle.l2_turn_engine.specs.Lists.{rank_count, rank_index};

use crate::fills::{KeptFill, MovedFill};
use crate::indexes::{rank_count, rank_index};
use crate::ranked::{are_forms_of, only_at};
use crate::tells::{none_at_bottom, turns_tell};
use l2_goals::Goals;
use l2_missed::Shared;
use l2_row_engine::{Cut, is_point_of};
use l2_runs::index_of;
use l2_templates::{Form, Point};
use std::alloc::{AllocError, Global};

/// The index of a loop by its number, where it isn't at Bottom.
fn ranked_loop(point: &Point, at: u32) -> Option<usize>
    ensures { MatchOption result (point_at point.now at ≡ Bottom)
        (λ i. (at ≡ suc i) × (i < length point.now) × (1 ≤ rank_count (point_at point.now (suc i)))) }
{
    let i = index_of(at)?;
    if i < point.len() && rank_count(point.get(i)) == 1 {
        Some(i)
    } else {
        None
    }
}

/// Whether the goal of the ranking of the loop of an index has a model.
fn is_missed(alloc: Global, goals: &Goals, point: &Point, i: usize) -> Result<bool, AllocError>
    requires within { i ≤ length point.now }
    requires inside { rank_index point.now i < length goals.now.last }
    ensures { IfOk result (λ met. IsTrue met ↔ IsMet goals.now.base goals.now.last (rank_index point.now i)) }
{
    let index = rank_index(point, i)?;
    let mut shared = Shared::new(alloc, &goals.base)?;
    shared.meets(goals.last.clause(index as u64))
}

/// Whether on some turn of the loop of an index, which isn't at Bottom, the forms keep their values and one more moves.
fn moves_at<'x>(
    alloc: Global,
    cut: &Cut<'x>,
    point: &'x Point,
    i: usize,
    equal: &[Form],
    form: Form,
    rises: bool,
) -> Result<bool, AllocError>
    requires within { i < length point.now }
    requires ranked { 1 ≤ rank_count (point_at point.now (suc i)) }
    ensures { IfOk result (λ found. IsTrue found ↔ SomeMove (program_tree cut.now.program) (family cut.now.sets).object cut.now.copies point.now (suc i) equal.now form rises) }
{
    turns_tell();
    let code = cut.code();
    let mut forms = Vec::from_slice(alloc, equal)?;
    forms.push(form)?;
    if !is_point_of(code, point) || !are_forms_of(code, i, &forms) {
        return Err(AllocError);
    }
    let all = only_at(alloc, i, &forms)?;
    let others = only_at(alloc, i, equal)?;
    let fill = MovedFill {
        code,
        point,
        rises,
        longer: &all,
        shorter: &others,
    };
    let goals = cut.filled(alloc, point, &fill)?;
    is_missed(alloc, &goals, point, i)
}

/// Whether on some turn of the loop of an index, which isn't at Bottom, the forms keep their values.
fn stays_at<'x>(
    alloc: Global,
    cut: &Cut<'x>,
    point: &'x Point,
    i: usize,
    equal: &[Form],
) -> Result<bool, AllocError>
    requires within { i < length point.now }
    requires ranked { 1 ≤ rank_count (point_at point.now (suc i)) }
    ensures { IfOk result (λ found. IsTrue found ↔ SomeStay (program_tree cut.now.program) (family cut.now.sets).object cut.now.copies point.now (suc i) equal.now) }
{
    turns_tell();
    let code = cut.code();
    if !is_point_of(code, point) || !are_forms_of(code, i, equal) {
        return Err(AllocError);
    }
    let ranks = only_at(alloc, i, equal)?;
    let fill = KeptFill {
        code,
        point,
        list: &ranks,
    };
    let goals = cut.filled(alloc, point, &fill)?;
    is_missed(alloc, &goals, point, i)
}

/// Whether on some turn of a loop, one that counts, the forms keep their values and one more moves. There is no answer about points and
/// forms that aren't over the loops' variables.
pub fn moves(
    alloc: Global,
    cut: &Cut<'_>,
    point: &Point,
    at: u32,
    equal: &[Form],
    form: Form,
    rises: bool,
) -> Result<bool, AllocError>
    ensures { IfOk result (λ found. IsTrue found ↔ SomeMove (program_tree cut.now.program) (family cut.now.sets).object cut.now.copies point.now at equal.now form rises) }
{
    none_at_bottom();
    match ranked_loop(point, at) {
        Some(i) => moves_at(alloc, cut, point, i, equal, form, rises),
        None => Ok(false),
    }
}

/// Whether on some turn of a loop, one that counts, the forms keep their values. There is no answer about points and forms that aren't
/// over the loops' variables.
pub fn stays(
    alloc: Global,
    cut: &Cut<'_>,
    point: &Point,
    at: u32,
    equal: &[Form],
) -> Result<bool, AllocError>
    ensures { IfOk result (λ found. IsTrue found ↔ SomeStay (program_tree cut.now.program) (family cut.now.sets).object cut.now.copies point.now at equal.now) }
{
    none_at_bottom();
    match ranked_loop(point, at) {
        Some(i) => stays_at(alloc, cut, point, i, equal),
        None => Ok(false),
    }
}
