//! What the search for the strongest point and for rankings rests on.
ghost use Rattle.std.specs.Prelude.{◌≡◌, ◌&&◌, ℕ, ℤ, Bool, true, List, length, Some};
ghost use Rattle.l2_runs.specs.Store.{Store};
ghost use Rattle.l2_runs.specs.Runs.{Fallen};
ghost use Rattle.l2_program.specs.Programs.{ProgramTree};
ghost use Rattle.l2_meaning.specs.Pointing.{Sets};
ghost use Rattle.l2_templates.specs.declared.form.Form.{Form};
ghost use Rattle.l2_templates.specs.declared.point.LoopPoint.{LoopPoint};
ghost use Rattle.l2_templates.specs.Points.{holds, IsStronger};
ghost use Rattle.l2_cuts.specs.Points.{values_of, point_at};
ghost use Rattle.l2_cuts.specs.Cuts.{row_end, Infers, TurnsPass, RankProves};
ghost use Rattle.l2_cuts.specs.Strongest.{Reaches, row_passes};
ghost use Rattle.l2_cuts.specs.Rankings.{RanksAre};

/// A run that fails a row comes to the end of a turn that counts where this row doesn't hold, which may be asked for before the
/// rows of that end. What the rows of a weaker point say, where it infers, holds at each such end of the stronger one's runs.
pub fn reach_law()
    ensures rows { (p : ProgramTree) (sets : Sets) (k : ℕ) (q : List LoopPoint) (l row : ℕ) (choices : List ℤ) → row_end p sets k q choices ≡ Fallen l row → Reaches p sets k q l (row_passes (point_at q l) row) }
    ensures below { (p : ProgramTree) (sets : Sets) (k : ℕ) (a b : List LoopPoint) → IsStronger a b → Infers p sets k b → (l : ℕ) (passes : Store → Bool) → ((store : Store) → holds (point_at b l) (values_of store) ≡ true → passes store ≡ true) → ¬ Reaches p sets k a l passes }
{}

/// Where each turn that counts passes a watch, it passes each weaker one; and where it passes two, it passes both at once.
pub fn watch_law()
    ensures weaker { (p : ProgramTree) (sets : Sets) (k : ℕ) (q : List LoopPoint) (w v : ℕ → Store → Store → Bool) → ((l : ℕ) (old new : Store) → w l old new ≡ true → v l old new ≡ true) → TurnsPass p sets k q w → TurnsPass p sets k q v }
    ensures both { (p : ProgramTree) (sets : Sets) (k : ℕ) (q : List LoopPoint) (w v : ℕ → Store → Store → Bool) → TurnsPass p sets k q w → TurnsPass p sets k q v → TurnsPass p sets k q (λ l old new. w l old new && v l old new) }
{}

/// Where each loop has its greedy list at a point that infers, the lists rank the loops.
pub fn rank_law()
    ensures { (p : ProgramTree) (sets : Sets) (k : ℕ) (q : List LoopPoint) (r : List (List Form)) → Infers p sets k q → length q ≡ length p.loops → RanksAre p sets k q (Some r) → RankProves p sets k q r }
{}
