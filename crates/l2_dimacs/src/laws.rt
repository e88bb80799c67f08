ghost use Rattle.std.specs.Prelude.{◌≡◌, ℕ, ℤ, List};
ghost use Rattle.l2_dimacs.specs.Profile.{IsFile, IsRefused};

/// A text is one formula at most.
pub fn one_formula()
    ensures { (text : List ℕ) (v w : ℕ) (first second : List (List ℤ)) → IsFile text v first → IsFile text w second →
        (v ≡ w) × (first ≡ second) }
{}

/// A text that is refused is no formula.
pub fn refused_is_no_formula()
    ensures { (text : List ℕ) (line v : ℕ) (clauses : List (List ℤ)) → IsRefused text line → ¬ IsFile text v clauses }
{}
