//! The laws, as functions without effect whose contracts they are.
ghost use Rattle.std.specs.Prelude.{◌≡◌, ℕ, suc, ℤ, Bool, true, false, List};
ghost use Rattle.l2_runs.specs.Store.{Store};
ghost use Rattle.l2_runs.specs.Loops.{Tests};
ghost use Rattle.l2_program.specs.Programs.{ProgramTree};
ghost use Rattle.l2_meaning.specs.Pointing.{Sets};
ghost use Rattle.l2_templates.specs.declared.point.LoopPoint.{LoopPoint};
ghost use Rattle.l2_run_laws.specs.Watches.{alone};
ghost use Rattle.l2_cuts.specs.Points.{point_at};
ghost use Rattle.l2_cuts.specs.Cuts.{cut_end, row_end};
ghost use Rattle.l2_renumber_laws.specs.Renumbered.{AreRenumbered, all_hold, renumbered_end};
ghost use Rattle.l2_renumber_laws.specs.Fronted.{fronted};

/// Cut runs end alike under tests that are the same but for their numbers and for tests that always hold.
pub fn renumber_law()
    ensures { (p : ProgramTree) (sets : Sets) (k : ℕ) (q : List LoopPoint) (number : ℕ → ℕ → ℕ) (tests others : Tests) → ((counted : Bool) (l : ℕ) → AreRenumbered (number l) (tests counted l) (others counted l))
        → (choices : List ℤ) → cut_end p sets k q others choices ≡ renumbered_end number (cut_end p sets k q tests choices) }
{}

/// Cut runs end alike under tests that are so at the ends of turns that count, and of which elsewhere all hold of the same turns.
pub fn counted_law()
    ensures { (p : ProgramTree) (sets : Sets) (k : ℕ) (q : List LoopPoint) (number : ℕ → ℕ → ℕ) (tests others : Tests) → ((l : ℕ) → AreRenumbered (number l) (tests true l) (others true l))
        → ((l : ℕ) (a b : Store) → all_hold (others false l) a b ≡ all_hold (tests false l) a b)
        → (choices : List ℤ) → cut_end p sets k q others choices ≡ renumbered_end number (cut_end p sets k q tests choices) }
{}

/// Cut runs end alike, with their rows' numbers one greater, where each loop has one row more in front, that it isn't at Bottom, and
/// rows behind its own that always hold.
pub fn front_law()
    ensures { (p : ProgramTree) (sets : Sets) (k : ℕ) (q : List LoopPoint) (more : ℕ → ℕ) (choices : List ℤ)
        → cut_end p sets k q (alone (λ l. fronted (point_at q l) (more l))) choices ≡ renumbered_end (λ l row. suc row) (row_end p sets k q choices) }
{}
