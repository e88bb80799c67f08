ghost use Rattle.std.specs.Prelude.{◌≡◌, ◌≤◌, ◌<◌, ◌^◌, [], IfOk, MatchOption, None, Some, length};
ghost use Rattle.l2_cnf.specs.Logic.{AllWithin};
ghost use Rattle.l2_code.specs.Trees.{code_of};
ghost use Rattle.l2_code.specs.Sets.{AllRise, family};
ghost use Rattle.l2_code.specs.Sizes.{size};
ghost use Rattle.l2_unwind.specs.Refused.{most_weight};
ghost use Rattle.l2_templates.specs.Points.{bounded};
ghost use Rattle.l2_cert.specs.declared.cert.CertKind.TheVariants.{Safe, Terminating};
ghost use Rattle.l2_goals.specs.Formulas.{formulas};
ghost use Rattle.l2_goals.specs.Numbers.{row_counts};
ghost use Rattle.l2_refute.specs.Refuting.{AreRefuted, SomeHasModel};
ghost use Rattle.l2_certify.specs.Certifying.{Certifies, SomeGoalHasModel};

use crate::spelling::{are_loops, are_rankings};
use l2_bits::List;
use l2_cert::{Cert, CertKind};
use l2_cnf::Lines;
use l2_code::{Code, Sets};
use l2_goals::{Goals, goals_of};
use l2_refute::refute_goals;
use l2_templates::{Point, Ranks, bounded};
use std::alloc::{AllocError, Global};

/// The steps that refute goals, no more than a file can count.
fn steps_of(alloc: Global, goals: &Goals) -> Result<Option<Vec<Lines>>, AllocError>
    requires base { AllWithin goals.now.variables goals.now.base }
    requires last { AllWithin goals.now.variables goals.now.last }
    ensures { IfOk result (λ r. MatchOption r (SomeHasModel goals.now.base goals.now.last)
        (λ steps. (length steps.items < 2 ^ 32) × AreRefuted (record { base = goals.now.base; variables = goals.now.variables; last = goals.now.last; steps = steps.items }))) }
{
    let Some(steps) = refute_goals(alloc, &goals.base, &goals.last, goals.variables)? else {
        return Ok(None);
    };
    match u32::try_from(steps.len()) {
        Ok(_) => Ok(Some(steps)),
        Err(_) => Err(AllocError),
    }
}

/// The certificate that no execution breaks a check, at the point without the rows that have no bound; or None where the formula of
/// some goal has a model. What no file can spell is want of memory.
pub fn certify_safe(
    alloc: Global,
    code: &Code,
    sets: &Sets,
    overflow: bool,
    k: u32,
    point: Point,
) -> Result<Option<Cert>, AllocError>
    requires rise { AllRise sets.now.sets }
    requires some { 1 ≤ k }
    requires most { k ≤ 64 }
    requires small { size (code_of code.now) (family sets.now) k (row_counts (bounded point)) ≤ most_weight }
    ensures { IfOk result (λ r. MatchOption r (SomeGoalHasModel (formulas (code_of code.now) (family sets.now) k (bounded point) None))
        (Certifies Safe overflow k (bounded point) [] (formulas (code_of code.now) (family sets.now) k (bounded point) None))) }
{
    let point = bounded(point);
    if !are_loops(&point) {
        return Err(AllocError);
    }
    let Ok(goals) = goals_of(alloc, code, sets, k, &point, None) else {
        return Err(AllocError);
    };
    let Some(steps) = steps_of(alloc, &goals)? else {
        return Ok(None);
    };
    Ok(Some(Cert {
        kind: CertKind::Safe,
        overflow,
        k,
        point,
        ranks: Ranks::new(alloc),
        goals: List::new(steps),
    }))
}

/// The certificate that every execution ends, by these rankings; or None where the formula of some goal has a model. What no file can
/// spell is want of memory.
pub fn certify_terminating(
    alloc: Global,
    code: &Code,
    sets: &Sets,
    overflow: bool,
    k: u32,
    point: Point,
    ranks: Ranks,
) -> Result<Option<Cert>, AllocError>
    requires rise { AllRise sets.now.sets }
    requires some { 1 ≤ k }
    requires most { k ≤ 64 }
    requires small { size (code_of code.now) (family sets.now) k (row_counts (bounded point)) ≤ most_weight }
    ensures { IfOk result (λ r. MatchOption r (SomeGoalHasModel (formulas (code_of code.now) (family sets.now) k (bounded point) (Some ranks)))
        (Certifies Terminating overflow k (bounded point) ranks (formulas (code_of code.now) (family sets.now) k (bounded point) (Some ranks)))) }
{
    let point = bounded(point);
    if !are_loops(&point) || !are_rankings(&point, &ranks) {
        return Err(AllocError);
    }
    let Ok(goals) = goals_of(alloc, code, sets, k, &point, Some(&ranks)) else {
        return Err(AllocError);
    };
    let Some(steps) = steps_of(alloc, &goals)? else {
        return Ok(None);
    };
    Ok(Some(Cert {
        kind: CertKind::Terminating,
        overflow,
        k,
        point,
        ranks,
        goals: List::new(steps),
    }))
}
