ghost use Rattle.std.specs.Prelude.{ℕ, Bool, List, Option, None, Contains};
ghost use Rattle.l2_program.specs.Programs.{ProgramTree};
ghost use Rattle.l2_meaning.specs.Pointing.{Sets};
ghost use Rattle.l2_templates.specs.declared.form.Form.{Form};
ghost use Rattle.l2_templates.specs.declared.point.LoopPoint.{LoopPoint};
ghost use Rattle.l2_cuts.specs.Points.{ranks_at};
ghost use Rattle.l2_cuts.specs.Cuts.{Infers, RankProves};
ghost use Rattle.l2_cuts.specs.Rankings.{RanksAre, candidates};
ghost use Rattle.l2_rank.specs.Greedy.{AreRanks};
ghost use Rattle.l2_rank_laws.specs.Moves.{SomeMove, SomeStay};

/// At a point that infers, lists that are greedy by what some turns do are the greedy lists of the program.
pub fn greedy_law()
    ensures { (p : ProgramTree) (sets : Sets) (k : ℕ) (q : List LoopPoint) (r : Option (List (List Form))) → Infers p sets k q → AreRanks (SomeMove p sets k q) (SomeStay p sets k q) p.loops r → RanksAre p sets k q r }
{}

/// What keeps its value on a turn neither rises nor falls on it.
pub fn kept_law()
    ensures { (p : ProgramTree) (sets : Sets) (k : ℕ) (q : List LoopPoint) (l : ℕ) (fs : List Form) (f : Form) (up : Bool) → Contains fs f → ¬ SomeMove p sets k q l fs f up }
{}

/// Where some loop has no greedy list, no lists of candidates rank the loops.
pub fn stuck_law()
    ensures { (p : ProgramTree) (sets : Sets) (k : ℕ) (q : List LoopPoint) → RanksAre p sets k q None → (r : List (List Form)) → ((l : ℕ) (f : Form) → Contains (ranks_at r l) f → Contains (candidates p l) f) → ¬ RankProves p sets k q r }
{}
