//! What holds of the definitions: functions without effect whose contracts are the laws.
ghost use Rattle.std.specs.Prelude.{◌≡◌, ℕ, ℤ, List};
ghost use Rattle.l2_runs.specs.Loops.{Tests};
ghost use Rattle.l2_program.specs.Programs.{ProgramTree};
ghost use Rattle.l2_meaning.specs.Execution.{cells_of, exec};
ghost use Rattle.l2_meaning.specs.Lawful.{IsLawful};
ghost use Rattle.l2_templates.specs.declared.point.LoopPoint.{LoopPoint};
ghost use Rattle.l2_cuts.specs.Cuts.{cut_limit};
ghost use Rattle.l2_code.specs.Sets.{Family};
ghost use Rattle.l2_lower.specs.Alike.{exec_code};
ghost use Rattle.l2_lower.specs.Code.{code};
ghost use Rattle.l2_cut_code.specs.Limits.{NameCells, point_limit};

/// The loops of a program's code start back at a point as those of the program do, so that the cut executions of the code at
/// a point are those of the program, under all tests: the point's rows, and what watches turns beside them.
pub fn points_on_code()
    ensures limits { (p : ProgramTree) (f : Family) (k : ℕ) (q : List LoopPoint) → cut_limit p f.object k q ≡ point_limit (code p) f k q }
    ensures executions { (p : ProgramTree) → IsLawful p → (f : Family) → NameCells (cells_of p) f.object → (k : ℕ) (q : List LoopPoint) (tests : Tests) (choices : List ℤ) (turns : ℕ) →
        exec p (cut_limit p f.object k q) tests choices turns ≡ exec_code (code p) (point_limit (code p) f k q) tests choices turns }
{}
