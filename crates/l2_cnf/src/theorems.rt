ghost use Rattle.std.specs.Prelude.{◌++◌, ◌≤◌, [], ℕ, ℤ, Bool, List, Contains};
ghost use Rattle.l2_cnf.specs.Logic.{AreLiterals, HasTrue, Satisfies, Follows, IsAbsorbed, Settles};
ghost use Rattle.l2_cnf.specs.Steps.{Step, IsDerivation, clauses_of};

/// What follows by reverse unit propagation is implied.
pub fn followed_is_implied()
    ensures { (v : ℕ → Bool) (list : List (List ℤ)) (clause : List ℤ)
        → AreLiterals clause → Follows list clause → Satisfies v list → HasTrue v clause }
{}

/// Every clause of a derivation is implied by the formula.
pub fn derived_is_implied()
    ensures { (v : ℕ → Bool) (formula : List (List ℤ)) (variables : ℕ) (steps : List Step)
        → IsDerivation formula variables steps → Satisfies v formula → Satisfies v (clauses_of steps) }
{}

/// A clause that is absorbed stays so when the list grows.
pub fn absorbed_is_kept()
    ensures { (list more : List (List ℤ)) (clause : List ℤ)
        → IsAbsorbed list clause → IsAbsorbed (list ++ more) clause }
{}

/// What a list settles stays settled when the list grows.
pub fn settled_is_kept()
    ensures { (list more : List (List ℤ)) (literals : List ℤ)
        → Settles list literals → Settles (list ++ more) literals }
{}

/// What a list settles stays settled with more literals beside it.
pub fn settled_with_more()
    ensures { (list : List (List ℤ)) (few many : List ℤ)
        → ((l : ℤ) → Contains few l → Contains many l) → Settles list few → Settles list many }
{}

/// A derivation over some variables is one over more of them.
pub fn derived_over_more()
    ensures { (formula : List (List ℤ)) (few many : ℕ) (steps : List Step)
        → few ≤ many → IsDerivation formula few steps → IsDerivation formula many steps }
{}

/// A clause of a list is absorbed by it.
pub fn member_is_absorbed()
    ensures { (list : List (List ℤ)) (clause : List ℤ) → Contains list clause → IsAbsorbed list clause }
{}

/// The empty clause is absorbed by every list.
pub fn empty_is_absorbed()
    ensures { (list : List (List ℤ)) → IsAbsorbed list [] }
{}
