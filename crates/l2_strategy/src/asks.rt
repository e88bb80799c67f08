ghost use Rattle.std.specs.Prelude.{◌≡◌, ◌↔◌, ◌≤ℤ◌, ◌≤◌, ◌+◌, ℕ, ℤ, IfOk, IsTrue, MatchOption, List};
ghost use Rattle.l2_templates.specs.declared.point.LoopPoint.{LoopPoint};
ghost use Rattle.l2_templates.specs.Points.{AreAlike, IsStronger};
ghost use Rattle.l2_cuts.specs.Points.{point_at};
ghost use Rattle.l2_strategy.specs.Asking.{IsAskable, IsBounded, IsFailed};

use l2_templates::Point;
use std::alloc::{AllocError, Global};

/// A row that some run fails: its loop, and its number among the loop's rows, both from 1; 0 where the loop is at Bottom.
#[derive(Clone, Copy, PartialEq, Eq, Debug)]
pub struct BrokenRow {
    pub at: u32,
    pub row: u32,
}

/// An engine that answers questions about the cut runs of points.
pub trait Asks {
    /// What is asked about, which no question changes.
    type Problem;

    ghost problem: { Self → Self.Problem };

    /// No run fails a row of the point.
    ghost infers: { Self.Problem → List LoopPoint → Type 0 };

    /// Some run of the point comes to the end of a turn of the loop, one that counts, where the value of the row of this number
    /// exceeds this; with number 0 it comes there. The rows of this end aren't asked.
    ghost exceeds: { Self.Problem → List LoopPoint → ℕ → ℕ → ℤ → Type 0 };

    /// How many questions were asked.
    ghost asked: { Self → ℕ };

    /// A row that some run fails, where there is one.
    fn any(&mut self, alloc: Global, point: &Point) -> Result<Option<BrokenRow>, AllocError>
        ensures same { problem self.new ≡ problem self.old }
        ensures asked { asked self.new ≤ asked self.old + 1 }
        ensures is { IfOk result (λ r. MatchOption r (infers (problem self.old) point.now)
            (λ b. IsFailed (exceeds (problem self.old) point.now) point.now b.at b.row)) };

    /// Whether some run exceeds this, which is no less than the row's bound.
    fn row(
        &mut self,
        alloc: Global,
        point: &Point,
        broken: BrokenRow,
        above: i128,
    ) -> Result<bool, AllocError>
        requires { IsAskable point.now broken.at broken.row above }
        ensures same { problem self.new ≡ problem self.old }
        ensures asked { asked self.new ≤ asked self.old + 1 }
        ensures is { IfOk result (λ found. IsTrue found ↔ exceeds (problem self.old) point.now broken.at broken.row above) };

    /// What exceeds a number exceeds each smaller one.
    ghost lower_law: { (x : Self.Problem) (q : List LoopPoint) (l row : ℕ) (a b : ℤ) → b ≤ℤ a → exceeds x q l row a → exceeds x q l row b };

    /// Runs of a point exceed no bound of a weaker one of the same forms that infers.
    ghost below_law: { (x : Self.Problem) (a b : List LoopPoint) → AreAlike a b → IsStronger a b → infers x b → (l row : ℕ) (above : ℤ) → IsBounded (point_at b l) row above → ¬ exceeds x a l row above };
}
