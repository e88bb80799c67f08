//! Laws of the rows of points. They are functions without effect whose contracts are the laws.
ghost use Rattle.std.specs.Prelude.{◌≡◌, ◌≤◌, ◌≤ℤ◌, ℕ, ℤ, List, length, map};
ghost use Rattle.l2_runs.specs.Runs.{Fallen};
ghost use Rattle.l2_program.specs.Programs.{ProgramTree};
ghost use Rattle.l2_meaning.specs.Pointing.{Sets};
ghost use Rattle.l2_templates.specs.declared.families.Family.{Family};
ghost use Rattle.l2_templates.specs.declared.point.LoopPoint.{LoopPoint};
ghost use Rattle.l2_templates.specs.Domains.{row_list};
ghost use Rattle.l2_templates.specs.Points.{AreAlike, IsStronger};
ghost use Rattle.l2_cuts.specs.Points.{point_at};
ghost use Rattle.l2_cuts.specs.Cuts.{row_end, Infers};
ghost use Rattle.l2_cuts.specs.Strongest.{IsStrongest};
ghost use Rattle.l2_strategy.specs.Asking.{IsBounded, IsFailed};
ghost use Rattle.l2_strategy.specs.Places.{IsStrongestOf};
ghost use Rattle.l2_row_laws.specs.Exceeding.{Exceeds};

/// What exceeds a number exceeds each smaller one. Runs of a point exceed no bound of a weaker one of the same forms that infers.
/// Where a run fails a row, some run exceeds this row's bound, or comes to the end of a turn at Bottom.
pub fn row_law()
    ensures lower { (p : ProgramTree) (sets : Sets) (k : ℕ) (q : List LoopPoint) (l row : ℕ) (a b : ℤ) → b ≤ℤ a → Exceeds p sets k q l row a → Exceeds p sets k q l row b }
    ensures below { (p : ProgramTree) (sets : Sets) (k : ℕ) (a b : List LoopPoint) → AreAlike a b → IsStronger a b → Infers p sets k b → (l row : ℕ) (above : ℤ) → IsBounded (point_at b l) row above → ¬ Exceeds p sets k a l row above }
    ensures failed { (p : ProgramTree) (sets : Sets) (k : ℕ) (q : List LoopPoint) (l row : ℕ) (choices : List ℤ) → row_end p sets k q choices ≡ Fallen l row → 1 ≤ l → l ≤ length q → IsFailed (Exceeds p sets k q) q l row }
{}

/// The strongest point of the forms that a domain gives the loops is the domain's strongest point.
pub fn strongest_law()
    ensures { (p : ProgramTree) (sets : Sets) (k : ℕ) (family : Family) (bounds : List ℤ) (q : List LoopPoint) → IsStrongestOf (Infers p sets k) bounds (map (λ loop. row_list family loop.vars loop.mods) p.loops) q → IsStrongest p sets k family bounds q }
{}
