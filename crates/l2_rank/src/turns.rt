ghost use Rattle.std.specs.Prelude.{◌≡◌, ◌↔◌, ℕ, Bool, IfOk, IsTrue, List, Contains};
ghost use Rattle.l2_templates.specs.declared.form.Form.{Form};
ghost use Rattle.l2_templates.specs.declared.point.LoopPoint.{LoopPoint};

use l2_templates::{Form, Point};
use std::alloc::{AllocError, Global};

/// An engine that answers questions about the turns that count in the cut runs of a point. Loops are numbered from 1.
pub trait Turns {
    /// What is asked about, which no question changes.
    type Problem;

    ghost problem: { Self → Self.Problem };

    /// On some turn of the loop these forms keep their values, and one more form rises, or falls where the last is false.
    ghost moves: { Self.Problem → List LoopPoint → ℕ → List Form → Form → Bool → Type 0 };

    /// On some turn of the loop these forms keep their values.
    ghost stays: { Self.Problem → List LoopPoint → ℕ → List Form → Type 0 };

    /// Whether the form rises, or falls, on a turn on which the others keep their values.
    fn turn(
        &mut self,
        alloc: Global,
        point: &Point,
        at: u32,
        equal: &[Form],
        form: Form,
        rises: bool,
    ) -> Result<bool, AllocError>
        ensures same { problem self.new ≡ problem self.old }
        ensures is { IfOk result (λ found. IsTrue found ↔ moves (problem self.old) point.now at equal.now form rises) };

    /// Whether the forms keep their values on some turn.
    fn stay(
        &mut self,
        alloc: Global,
        point: &Point,
        at: u32,
        equal: &[Form],
    ) -> Result<bool, AllocError>
        ensures same { problem self.new ≡ problem self.old }
        ensures is { IfOk result (λ found. IsTrue found ↔ stays (problem self.old) point.now at equal.now) };

    /// What keeps its value neither rises nor falls.
    ghost kept_law: { (x : Self.Problem) (q : List LoopPoint) (l : ℕ) (fs : List Form) (f : Form) (up : Bool) → Contains fs f → ¬ moves x q l fs f up };
}
