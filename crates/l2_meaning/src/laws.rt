//! What holds of the definitions: functions without effect whose contracts are the laws.
ghost use Rattle.std.specs.Prelude.{◌≡◌, ℕ, ℤ, Bool, List, Some};
ghost use Rattle.l2_runs.specs.declared.outcome.Outcome.TheVariants.{Broken};
ghost use Rattle.l2_runs.specs.Fits.{Layout, StoreFits, CellsFit};
ghost use Rattle.l2_runs.specs.Runs.{State, Over};
ghost use Rattle.l2_runs.specs.Loops.{Limit, Tests};
ghost use Rattle.l2_runs.specs.Keeps.{ResultFits, Anything, LimitKeeps};
ghost use Rattle.l2_runs.specs.Numbers.{at_number};
ghost use Rattle.l2_program.specs.declared.program.LoopInfo.{LoopInfo};
ghost use Rattle.l2_program.specs.Checked.{TypedTree};
ghost use Rattle.l2_program.specs.Types.{type_of};
ghost use Rattle.l2_program.specs.Programs.{ProgramTree};
ghost use Rattle.l2_meaning.specs.Meaning.{Calls, value};
ghost use Rattle.l2_meaning.specs.Execution.{cells_of, first_store, run_program, exec};
ghost use Rattle.l2_meaning.specs.Lawful.{Listing, IsTyped, HasChecks, IsLawful, IsSome, IsCheckOf, AreOfObjects};

/// Each cell of a lawful program holds a value of its type, at the start and after each run, and each expression gives a
/// value of its type.
pub fn runs_keep_types()
    ensures start { (p : ProgramTree) → IsLawful p → StoreFits (cells_of p) (first_store p) }
    ensures runs { (p : ProgramTree) → IsLawful p → (limit : Limit) (tests : Tests) → LimitKeeps (cells_of p) (IsCheckOf p) limit → (s : State) → StoreFits (cells_of p) s.store → ResultFits (cells_of p) (IsCheckOf p) Anything (run_program p limit tests s) }
    ensures values { (cells : Layout) (g : Listing) (limit : Limit) (tests : Tests) (is_main : Bool) (calls : Calls) (counted : Bool) (e : TypedTree) → IsTyped cells e → HasChecks g e → (s : State) → StoreFits cells s.store → ResultFits cells (λ c. IsSome (at_number g.checks c)) (CellsFit cells (type_of e)) (value (record { limit = limit; tests = tests; is_main = is_main; cells = cells; calls = calls }) counted e s) }
{}

/// A check that an execution of a lawful program breaks is one that the program lists.
pub fn broken_checks_are_listed()
    ensures { (p : ProgramTree) → IsLawful p → (limit : Limit) (tests : Tests) → LimitKeeps (cells_of p) (IsCheckOf p) limit → (choices : List ℤ) (turns c : ℕ) → (exec p limit tests choices turns).end ≡ Over (Broken c) → IsSome (at_number p.checks c) }
{}

/// What a loop of a lawful program may change are objects that have cells, and its variables are objects of one integer cell.
/// Both lists rise.
pub fn loops_have_sets()
    ensures { (p : ProgramTree) → IsLawful p → (l : ℕ) (info : LoopInfo) → at_number p.loops l ≡ Some info → AreOfObjects (cells_of p) info }
{}
