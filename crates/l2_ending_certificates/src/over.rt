// Whether rankings are over the variables of a code's loops.
ghost use Rattle.std.specs.Prelude.{◌≡◌, ℕ};
ghost use Rattle.std.specs.Bool.{OnTrue};
ghost use Rattle.std.specs.List.{All};
ghost use Rattle.l2_code.specs.Trees.{code_of};
ghost use Rattle.l2_cuts.specs.Points.{ranks_at};
ghost use Rattle.l2_ssa_points.specs.Places.{vars_of};
ghost use Rattle.l2_goal_laws.specs.Fits.{IsFormOf};
ghost use Rattle.l2_ending_certificates.specs.Over.{AreOver, AreOverLoops};

use l2_code::{Code, CodeLoop};
use l2_row_engine::is_form;
use l2_templates::{Form, Ranks};

fn are_over(vars: &[u32], forms: &[Form]) -> bool
    ensures { OnTrue result (AreOver vars.now forms.now) }
{
    for form in forms {
        if !is_form(vars, form) {
            return false;
        }
    }
    true
}

fn are_over_loops(loops: &[CodeLoop], ranks: &Ranks) -> bool
    ensures { OnTrue result (AreOverLoops loops.now ranks.now) }
{
    if loops.len() != ranks.len() {
        return false;
    }
    for i in 0..loops.len() {
        if !are_over(loops[i].vars.as_slice(), ranks.get(i)) {
            return false;
        }
    }
    true
}

/// Whether each loop of the code has a ranking over its variables.
pub fn are_rankings_of(code: &Code, ranks: &Ranks) -> bool
    ensures { OnTrue result ((l : ℕ) → All (IsFormOf (vars_of (code_of code.now) l)) (ranks_at ranks.now l)) }
{
    are_over_loops(code.loops.as_slice(), ranks)
}
