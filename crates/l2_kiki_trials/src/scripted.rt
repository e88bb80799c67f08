ghost use Rattle.std.specs.Prelude.{◌≡◌, [], true, false, MatchOption};

use l2_bits::List;
use l2_templates::{Found, Halt, Infer, Point, Ranks};
use std::alloc::Global;

/// What is known of a made-up program: at which k it is too large, a check breaks, its point proves, and has rankings.
#[derive(Clone, Copy, Debug, PartialEq, Eq)]
pub struct Plan {
    pub too_large: u32,
    pub breaks: u32,
    pub proves: u32,
    pub ranked: u32,
}

/// An engine that answers by its plan. Its points have no loops.
#[derive(Drop)]
pub struct Scripted {
    plan: Plan,
    at: u32,
    halted: bool,
}

impl Scripted {
    pub fn new(plan: Plan) -> Scripted
        ensures at { result.at ≡ 0 }
        ensures halted { result.halted ≡ false }
    {
        Scripted {
            plan,
            at: 0,
            halted: false,
        }
    }
}

impl Infer for Scripted {
    type Problem = Plan;

    ghost problem = { λ e. e.plan };

    ghost is_too_large = { λ p k. p.too_large ≡ k };

    ghost breaks = { λ p k. p.breaks ≡ k };

    ghost is_break = { λ p k f. f.check ≡ k };

    ghost is_strongest = { λ p k q. q ≡ [] };

    ghost proves_at = { λ p k q. p.proves ≡ k };

    ghost ranks_are = { λ p k q r. MatchOption r (¬ (p.ranked ≡ k)) (λ lists. (p.ranked ≡ k) × (lists ≡ [])) };

    ghost at = { λ e. e.at };

    ghost is_halted = { λ e. e.halted };

    ghost is_ranked = { λ e. true };

    fn short(&mut self, alloc: Global, k: u32) -> Result<Option<Found>, Halt> {
        self.at = k;
        if self.plan.too_large == k {
            self.halted = true;
            return Err(Halt::Size);
        }
        if self.plan.breaks != k {
            return Ok(None);
        }
        Ok(Some(Found {
            choices: List::new(Vec::new(alloc)),
            turns: 0,
            check: k,
        }))
    }

    fn point(&mut self, alloc: Global, k: u32) -> Result<Point, Halt> {
        self.at = k;
        if self.plan.too_large == k {
            self.halted = true;
            return Err(Halt::Size);
        }
        Ok(Point::new(alloc))
    }

    fn proves(&mut self, _alloc: Global, k: u32, _p: &Point) -> Result<bool, Halt> {
        self.at = k;
        if self.plan.too_large == k {
            self.halted = true;
            return Err(Halt::Size);
        }
        Ok(self.plan.proves == k)
    }

    fn ranks(&mut self, alloc: Global, k: u32, _p: &Point) -> Result<Option<Ranks>, Halt> {
        self.at = k;
        if self.plan.too_large == k {
            self.halted = true;
            return Err(Halt::Size);
        }
        if self.plan.ranked != k {
            return Ok(None);
        }
        Ok(Some(Ranks::new(alloc)))
    }
}
