//! What holds of a session's questions as it goes on.

ghost use Rattle.std.specs.Prelude.{◌++◌, ℤ, List};
ghost use Rattle.l2_cnf.specs.Logic.{Settles};

/// What a list and what was learnt of it settle stays settled when clauses are appended and when more is learnt.
pub fn settled_stays()
    ensures { (list more learnt later : List (List ℤ)) (assumptions : List ℤ)
        → Settles (list ++ learnt) assumptions → Settles ((list ++ more) ++ (learnt ++ later)) assumptions }
{}
