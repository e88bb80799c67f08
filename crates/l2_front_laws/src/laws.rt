//! The laws, as functions without effect whose contracts they are.
ghost use Rattle.std.specs.Prelude.{◌≡◌, ◌↔◌, ◌≤ℤ◌, ℕ, ℤ, Bool, List, Some};
ghost use Rattle.l2_runs.specs.Numbers.{at_number};
ghost use Rattle.l2_runs.specs.Runs.{Fallen};
ghost use Rattle.l2_runs.specs.Store.{Store};
ghost use Rattle.l2_program.specs.Programs.{ProgramTree};
ghost use Rattle.l2_meaning.specs.Pointing.{Sets};
ghost use Rattle.l2_templates.specs.declared.form.Row.{Row};
ghost use Rattle.l2_templates.specs.declared.point.LoopPoint.{LoopPoint};
ghost use Rattle.l2_templates.specs.declared.point.LoopPoint.TheVariants.{Bottom, Rows};
ghost use Rattle.l2_templates.specs.Points.{bounded};
ghost use Rattle.l2_cuts.specs.Points.{point_at};
ghost use Rattle.l2_cuts.specs.Cuts.{row_end, Infers, Proves, TurnsPass};
ghost use Rattle.l2_renumber_laws.specs.Renumbered.{renumbered_end};
ghost use Rattle.l2_row_laws.specs.Exceeding.{Exceeds};
ghost use Rattle.l2_front_laws.specs.Front.{with_raised};
ghost use Rattle.l2_front_laws.specs.Bounded.{number_of_bounded};

/// Some run exceeds a number that is no less than the row's bound exactly where, with the row once more in front of the others and
/// bounded by this number, some run fails the one in front.
pub fn raised_law()
    ensures { (p : ProgramTree) (sets : Sets) (k : ℕ) (q : List LoopPoint) (l row : ℕ) (above bound : ℤ) (rows : List Row) (r : Row)
        → point_at q l ≡ Rows rows → at_number rows row ≡ Some r → r.bound ≡ Some bound → bound ≤ℤ above
        → Exceeds p sets k q l row above ↔ ((choices : List ℤ) × (row_end p sets k (with_raised q l r above) choices ≡ Fallen l 1)) }
{}

/// Some run comes to the end of a turn of a loop at Bottom exactly where some run fails its row 0.
pub fn bottom_law()
    ensures { (p : ProgramTree) (sets : Sets) (k : ℕ) (q : List LoopPoint) (l : ℕ) (above : ℤ) → point_at q l ≡ Bottom
        → Exceeds p sets k q l 0 above ↔ ((choices : List ℤ) × (row_end p sets k q choices ≡ Fallen l 0)) }
{}

/// Without the rows that have no bound, runs end alike, but that the rows have the numbers that they have among all.
pub fn bounded_law()
    ensures ends { (p : ProgramTree) (sets : Sets) (k : ℕ) (q : List LoopPoint) (choices : List ℤ) → row_end p sets k q choices ≡ renumbered_end (λ l row. number_of_bounded (point_at q l) row) (row_end p sets k (bounded q) choices) }
    ensures infers { (p : ProgramTree) (sets : Sets) (k : ℕ) (q : List LoopPoint) → Infers p sets k q ↔ Infers p sets k (bounded q) }
    ensures proves { (p : ProgramTree) (sets : Sets) (k : ℕ) (q : List LoopPoint) → Proves p sets k q ↔ Proves p sets k (bounded q) }
    ensures turns { (p : ProgramTree) (sets : Sets) (k : ℕ) (q : List LoopPoint) (passes : ℕ → Store → Store → Bool) → TurnsPass p sets k q passes ↔ TurnsPass p sets k (bounded q) passes }
{}
