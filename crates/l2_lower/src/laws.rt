//! What holds of the definitions: functions without effect whose contracts are the laws.
ghost use Rattle.std.specs.Prelude.{◌≡◌, ℕ, ℤ, List};
ghost use Rattle.l2_runs.specs.Fits.{StoreFits};
ghost use Rattle.l2_runs.specs.Runs.{State};
ghost use Rattle.l2_runs.specs.Loops.{Limit, Tests};
ghost use Rattle.l2_runs.specs.Keeps.{LimitKeeps};
ghost use Rattle.l2_program.specs.Programs.{ProgramTree};
ghost use Rattle.l2_meaning.specs.Execution.{cells_of, exec, run_program};
ghost use Rattle.l2_meaning.specs.Execution as meaning;
ghost use Rattle.l2_meaning.specs.Lawful.{IsLawful, IsCheckOf};
ghost use Rattle.l2_meaning.specs.Pointing.{AreClosed, ArePointsTo};
ghost use Rattle.l2_code.specs.Modes.{types_of, first_store, run_code};
ghost use Rattle.l2_code.specs.Sets.{Family, IsInside, IsClosed};
ghost use Rattle.l2_code.specs.WellFormed.{IsWellFormed};
ghost use Rattle.l2_lower.specs.Alike.{Agree, exec_code};
ghost use Rattle.l2_lower.specs.Code.{code};

/// The code of a program does what the program does, under each limit and all tests at the ends of turns: it is over alike, with the
/// same choices and turns used, and in the same store, unless the program has ended. It starts with the program's store, and its
/// objects have the program's cells.
pub fn code_does_what_its_program_does()
    ensures executions { (p : ProgramTree) → IsLawful p → (limit : Limit) (tests : Tests) → LimitKeeps (cells_of p) (IsCheckOf p) limit → (choices : List ℤ) (turns : ℕ) → exec p limit tests choices turns ≡ exec_code (code p) limit tests choices turns }
    ensures runs { (p : ProgramTree) → IsLawful p → (limit : Limit) (tests : Tests) → LimitKeeps (cells_of p) (IsCheckOf p) limit → (s : State) → StoreFits (cells_of p) s.store → Agree (run_program p limit tests s) (run_code (code p) limit tests s) }
    ensures start { (p : ProgramTree) → first_store (code p) ≡ meaning.first_store p }
    ensures cells { (p : ProgramTree) → (types_of (code p)).objects ≡ cells_of p }
{}

/// The code of a lawful program is well formed.
pub fn code_is_well_formed()
    ensures { (p : ProgramTree) → IsLawful p → IsWellFormed (code p) }
{}

/// Sets of pointers that are closed over the code of a lawful program are, on its objects, closed over the program; the least
/// ones are the program's points-to sets.
pub fn code_has_the_sets_of_its_program()
    ensures closed { (p : ProgramTree) → IsLawful p → (f : Family) → IsClosed (code p) f → AreClosed p f.object }
    ensures least { (p : ProgramTree) → IsLawful p → (f : Family) → IsClosed (code p) f → ((g : Family) → IsClosed (code p) g → IsInside f g) → ArePointsTo p f.object }
{}
