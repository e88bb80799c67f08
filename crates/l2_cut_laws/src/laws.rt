//! What holds of the definitions of cut runs.
ghost use Rattle.std.specs.Prelude.{◌≡◌, ◌≤◌, ◌⊎◌, ℕ, ℤ, Bool, List};
ghost use Rattle.l2_runs.specs.declared.outcome.Outcome.TheVariants.{Broken, OutOfTurns};
ghost use Rattle.l2_runs.specs.Store.{Store};
ghost use Rattle.l2_runs.specs.Runs.{Over, Fallen};
ghost use Rattle.l2_runs.specs.Loops.{Real, Short, no_tests};
ghost use Rattle.l2_run_laws.specs.Watches.{alone};
ghost use Rattle.l2_program.specs.Programs.{ProgramTree};
ghost use Rattle.l2_meaning.specs.Execution.{exec, Safe};
ghost use Rattle.l2_meaning.specs.Pointing.{Sets, AreClosed};
ghost use Rattle.l2_meaning.specs.Lawful.{IsLawful};
ghost use Rattle.l2_templates.specs.declared.form.Form.{Form};
ghost use Rattle.l2_templates.specs.declared.point.LoopPoint.{LoopPoint};
ghost use Rattle.l2_templates.specs.Points.{meet, AreAlike, IsStronger};
ghost use Rattle.l2_cuts.specs.Cuts.{rows_at, watched, only_watched, IsFallen, cut_end, row_end, Infers, Proves, TurnsPass, RankProves};
ghost use Rattle.l2_cuts.specs.Turns.{turns_of, Terminating};

/// Where an execution breaks a check, some cut run breaks it or fails a row, whatever the point and however few the
/// copies. So a program is safe where a point proves.
pub fn cut_law()
    ensures breaks { (p : ProgramTree) → IsLawful p → (sets : Sets) → AreClosed p sets → (k : ℕ) → 1 ≤ k → (q : List LoopPoint) → (choices : List ℤ) (turns c : ℕ) → (exec p Real no_tests choices turns).end ≡ Over (Broken c) → (cs : List ℤ) × (IsFallen (row_end p sets k q cs) ⊎ (row_end p sets k q cs ≡ Over (Broken c))) }
    ensures safe { (p : ProgramTree) → IsLawful p → (sets : Sets) → AreClosed p sets → (k : ℕ) → 1 ≤ k → (q : List LoopPoint) → Proves p sets k q → Safe p }
{}

/// Where an execution breaks a check and a point infers, some cut run breaks this very check.
pub fn cut_law_of_check()
    ensures { (p : ProgramTree) → IsLawful p → (sets : Sets) → AreClosed p sets → (k : ℕ) → 1 ≤ k → (q : List LoopPoint) → Infers p sets k q → (choices : List ℤ) (turns c : ℕ) → (exec p Real no_tests choices turns).end ≡ Over (Broken c) → (cs : List ℤ) × (row_end p sets k q cs ≡ Over (Broken c)) }
{}

/// Where a point infers, its rows hold at the end of each turn of an execution, so that no turn ends of a loop at Bottom;
/// and each such turn is one that counts in some cut run: what fails there fails here.
pub fn turns_law()
    ensures rows { (p : ProgramTree) → IsLawful p → (sets : Sets) → AreClosed p sets → (k : ℕ) → 1 ≤ k → (q : List LoopPoint) → Infers p sets k q → (choices : List ℤ) (turns : ℕ) → ¬ IsFallen (exec p Real (alone (rows_at q)) choices turns).end }
    ensures counted { (p : ProgramTree) → IsLawful p → (sets : Sets) → AreClosed p sets → (k : ℕ) → 1 ≤ k → (q : List LoopPoint) → Infers p sets k q → (passes : ℕ → Store → Store → Bool) (choices : List ℤ) (turns l row : ℕ) → (exec p Real (only_watched q passes) choices turns).end ≡ Fallen l row → (cs : List ℤ) × (cut_end p sets k q (watched q passes) cs ≡ Fallen l row) }
    ensures passing { (p : ProgramTree) → IsLawful p → (sets : Sets) → AreClosed p sets → (k : ℕ) → 1 ≤ k → (q : List LoopPoint) (passes : ℕ → Store → Store → Bool) → TurnsPass p sets k q passes → (choices : List ℤ) (turns : ℕ) → exec p Real (only_watched q passes) choices turns ≡ exec p Real no_tests choices turns }
{}

/// Where each turn that counts passes a watch, the point infers. The meet of two points that infer does so too; and what a
/// point proves, and which turns pass at it, holds at every stronger point that infers.
pub fn meet_law()
    ensures infers { (p : ProgramTree) (sets : Sets) (k : ℕ) (q : List LoopPoint) (passes : ℕ → Store → Store → Bool) → TurnsPass p sets k q passes → Infers p sets k q }
    ensures meet { (p : ProgramTree) (sets : Sets) (k : ℕ) (a b : List LoopPoint) → AreAlike a b → Infers p sets k a → Infers p sets k b → Infers p sets k (meet a b) }
    ensures proves { (p : ProgramTree) (sets : Sets) (k : ℕ) (a b : List LoopPoint) → IsStronger a b → Infers p sets k a → Proves p sets k b → Proves p sets k a }
    ensures passes { (p : ProgramTree) (sets : Sets) (k : ℕ) (a b : List LoopPoint) (passes : ℕ → Store → Store → Bool) → IsStronger a b → Infers p sets k a → TurnsPass p sets k b passes → TurnsPass p sets k a passes }
    ensures ranks { (p : ProgramTree) (sets : Sets) (k : ℕ) (a b : List LoopPoint) (r : List (List Form)) → IsStronger a b → Infers p sets k a → RankProves p sets k b r → RankProves p sets k a r }
{}

/// Where each turn that counts lowers its loop's rank, no execution with the turns of the bound at hand, or more, uses them
/// up.
pub fn turn_bound()
    ensures turns { (p : ProgramTree) → IsLawful p → (sets : Sets) → AreClosed p sets → (k : ℕ) → 1 ≤ k → (q : List LoopPoint) (r : List (List Form)) → RankProves p sets k q r → (choices : List ℤ) (turns : ℕ) → turns_of p r ≤ turns → ¬ ((exec p Real no_tests choices turns).end ≡ Over OutOfTurns) }
    ensures terminating { (p : ProgramTree) → IsLawful p → (sets : Sets) → AreClosed p sets → (k : ℕ) → 1 ≤ k → (q : List LoopPoint) (r : List (List Form)) → RankProves p sets k q r → Terminating p r }
{}

/// Where a run in which each entry of a loop arrives at its head at most k times breaks a check, the execution with as many
/// turns as the run's arrivals does the same, and uses them up.
pub fn short_law()
    ensures { (p : ProgramTree) (k : ℕ) (choices : List ℤ) (c : ℕ) → (exec p (Short k) no_tests choices 0).end ≡ Over (Broken c) → exec p Real no_tests choices (exec p (Short k) no_tests choices 0).turns_used ≡ exec p (Short k) no_tests choices 0 }
{}
