// Lists of forms for one loop.
ghost use Rattle.std.specs.Prelude.{◌≡◌, ◌<◌, IfOk, length, suc};
ghost use Rattle.std.specs.Bool.{OnTrue};
ghost use Rattle.std.specs.List.{All};
ghost use Rattle.l2_code.specs.Trees.{code_of};
ghost use Rattle.l2_ssa_points.specs.Places.{vars_of};
ghost use Rattle.l2_goal_laws.specs.Fits.{IsFormOf};
ghost use Rattle.l2_turn_engine.specs.Lists.{only_at};

use l2_code::Code;
use l2_row_engine::is_form;
use l2_templates::{Form, Ranks};
use std::alloc::{AllocError, Global};

fn are_forms_over(vars: &[u32], forms: &[Form]) -> bool
    ensures { OnTrue result (All (IsFormOf vars.now) forms.now) }
{
    for form in forms {
        if !is_form(vars, form) {
            return false;
        }
    }
    true
}

/// Whether the forms are over the variables of the loop of this index.
pub fn are_forms_of(code: &Code, i: usize, forms: &[Form]) -> bool
    ensures { OnTrue result (All (IsFormOf (vars_of (code_of code.now) (suc i))) forms.now) }
{
    match code.loops.as_slice().get(i) {
        Some(info) => are_forms_over(info.vars.as_slice(), forms),
        None => false,
    }
}

/// The forms rank the loop of this index, and no other loop is ranked.
pub fn only_at(alloc: Global, i: usize, forms: &[Form]) -> Result<Ranks, AllocError>
    ensures { IfOk result (λ ranks. ranks ≡ only_at i forms.now) }
{
    let mut ranks = Ranks::new(alloc);
    for _ in 0..i {
        ranks.push(Vec::new(alloc))?;
    }
    let last = Vec::from_slice(alloc, forms)?;
    ranks.push(last)?;
    Ok(ranks)
}
