ghost use Rattle.std.specs.Prelude.{◌≡◌, ◌⊎◌, ◌↔◌, ◌+◌, ◌≤◌, ℕ, Bool, false, IsTrue, Option, Some, None, List, IfOk, OnOk, IsErr, IsErrOf, MatchOption};
ghost use Rattle.l2_templates.specs.declared.form.Form.{Form};
ghost use Rattle.l2_templates.specs.declared.infer.Found.{Found};
ghost use Rattle.l2_templates.specs.declared.point.LoopPoint.{LoopPoint};

use crate::lists::{Point, Ranks};
use l2_bits::List;
use std::alloc::Global;

/// An execution that breaks a check.
#[derive(Debug, Drop)]
pub struct Found {
    pub choices: List<i128>,
    pub turns: u64,
    pub check: u32,
}

/// Why a question has no answer.
#[derive(Clone, Copy, PartialEq, Eq, Debug)]
pub enum Halt {
    /// What is to be looked at for this k is too large.
    Size,
    NoMemory,
}

/// An engine that answers, for k = 1, 2, .., what is to be known of a program where its loops are unwound k times.
/// It is asked of one k after the other, and of none after it halted.
pub trait Infer {
    /// What is asked about, which no question changes.
    type Problem;

    ghost problem: { Self → Self.Problem };

    /// At this k it is too large.
    ghost is_too_large: { Self.Problem → ℕ → Type 0 };

    /// Some run with at most k turns an entry of a loop breaks a check.
    ghost breaks: { Self.Problem → ℕ → Type 0 };

    /// This execution is one.
    ghost is_break: { Self.Problem → ℕ → Found → Type 0 };

    /// The strongest point that infers at this k.
    ghost is_strongest: { Self.Problem → ℕ → List LoopPoint → Type 0 };

    /// The point proves at this k.
    ghost proves_at: { Self.Problem → ℕ → List LoopPoint → Type 0 };

    /// The rankings of the loops at a point, or that some loop has none.
    ghost ranks_are: { Self.Problem → ℕ → List LoopPoint → Option (List (List Form)) → Type 0 };

    /// The k that was asked of last, and 0 before the first question.
    ghost at: { Self → ℕ };

    /// A question had no answer.
    ghost is_halted: { Self → Bool };

    /// `ranks` may be asked.
    ghost is_ranked: { Self → Bool };

    /// An execution of at most k turns an entry that breaks a check, where there is one.
    fn short(&mut self, alloc: Global, k: u32) -> Result<Option<Found>, Halt>
        requires going { is_halted self.old ≡ false }
        requires some { 1 ≤ k }
        requires next { (k ≡ at self.old) ⊎ (k ≡ at self.old + 1) }
        ensures same { problem self.new ≡ problem self.old }
        ensures ranked { is_ranked self.new ≡ is_ranked self.old }
        ensures at { at self.new ≡ k }
        ensures halted { IsTrue (is_halted self.new) ↔ IsErr result }
        ensures size { IsErrOf result Halt.Size → is_too_large (problem self.old) k }
        ensures fits { OnOk result (¬ is_too_large (problem self.old) k) }
        ensures is { IfOk result (λ found. MatchOption found (¬ breaks (problem self.old) k)
            (λ f. breaks (problem self.old) k × is_break (problem self.old) k f)) };

    /// The strongest point that infers.
    fn point(&mut self, alloc: Global, k: u32) -> Result<Point, Halt>
        requires going { is_halted self.old ≡ false }
        requires some { 1 ≤ k }
        requires next { (k ≡ at self.old) ⊎ (k ≡ at self.old + 1) }
        ensures same { problem self.new ≡ problem self.old }
        ensures ranked { is_ranked self.new ≡ is_ranked self.old }
        ensures at { at self.new ≡ k }
        ensures halted { IsTrue (is_halted self.new) ↔ IsErr result }
        ensures size { IsErrOf result Halt.Size → is_too_large (problem self.old) k }
        ensures fits { OnOk result (¬ is_too_large (problem self.old) k) }
        ensures is { IfOk result (λ p. is_strongest (problem self.old) k p) };

    /// Whether the strongest point proves.
    fn proves(&mut self, alloc: Global, k: u32, p: &Point) -> Result<bool, Halt>
        requires going { is_halted self.old ≡ false }
        requires some { 1 ≤ k }
        requires next { (k ≡ at self.old) ⊎ (k ≡ at self.old + 1) }
        requires strongest { is_strongest (problem self.old) k p.now }
        ensures same { problem self.new ≡ problem self.old }
        ensures ranked { is_ranked self.new ≡ is_ranked self.old }
        ensures at { at self.new ≡ k }
        ensures halted { IsTrue (is_halted self.new) ↔ IsErr result }
        ensures size { IsErrOf result Halt.Size → is_too_large (problem self.old) k }
        ensures fits { OnOk result (¬ is_too_large (problem self.old) k) }
        ensures is { IfOk result (λ proved. IsTrue proved ↔ proves_at (problem self.old) k p.now) };

    /// The rankings at the strongest point; `None` where some loop has none.
    fn ranks(&mut self, alloc: Global, k: u32, p: &Point) -> Result<Option<Ranks>, Halt>
        requires going { is_halted self.old ≡ false }
        requires ranked { IsTrue (is_ranked self.old) }
        requires some { 1 ≤ k }
        requires next { (k ≡ at self.old) ⊎ (k ≡ at self.old + 1) }
        requires strongest { is_strongest (problem self.old) k p.now }
        ensures same { problem self.new ≡ problem self.old }
        ensures ranked { is_ranked self.new ≡ is_ranked self.old }
        ensures at { at self.new ≡ k }
        ensures halted { IsTrue (is_halted self.new) ↔ IsErr result }
        ensures size { IsErrOf result Halt.Size → is_too_large (problem self.old) k }
        ensures fits { OnOk result (¬ is_too_large (problem self.old) k) }
        ensures is { IfOk result (λ ranks. ranks_are (problem self.old) k p.now ranks) };
}
