ghost use Rattle.std.specs.Prelude.{◌≡◌, []};
ghost use Rattle.l2_rank_trials.specs.Falling.{Falls, falls_alone};

use l2_rank::Turns;
use l2_templates::{Form, Point};
use std::alloc::{AllocError, Global};

/// What is known of a made-up program: one loop has turns, and on each of them one form falls.
#[derive(Clone, Copy, Debug, PartialEq, Eq)]
pub struct Falling {
    pub at: u32,
    pub form: Form,
}

impl Turns for Falling {
    type Problem = Falling;

    ghost problem = { λ e. e };

    ghost moves = { λ x q l fs f up. Falls x.at x.form l fs f up };

    ghost stays = { λ x q l fs. (l ≡ x.at) × (fs ≡ []) };

    ghost kept_law = { λ x q l fs f up. falls_alone x.at x.form l fs f up };

    fn turn(
        &mut self,
        _alloc: Global,
        _point: &Point,
        at: u32,
        equal: &[Form],
        form: Form,
        rises: bool,
    ) -> Result<bool, AllocError> {
        Ok(at == self.at && equal.is_empty() && form == self.form && !rises)
    }

    fn stay(
        &mut self,
        _alloc: Global,
        _point: &Point,
        at: u32,
        equal: &[Form],
    ) -> Result<bool, AllocError> {
        Ok(at == self.at && equal.is_empty())
    }
}
