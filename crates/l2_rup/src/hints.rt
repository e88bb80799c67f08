ghost use Rattle.std.specs.Prelude.{◌≡◌, ◌≢◌, ◌≤◌, ◌<◌, ◌+◌, ◌++◌, ◌∷◌, [], ℕ, ℤ, pos, neg_ℤ, map, length, IsTrue, ◌↔◌, Contains, slice_index_or, MatchOption, MatchBool};
ghost use Rattle.std.specs.Bool.{OnTrue, OnFalse};
ghost use Rattle.l2_cnf.specs.Trail.{AreOver, AreApart};
ghost use Rattle.l2_cnf.specs.Steps.{IsAllFalse, IsUnit, Leads};
ghost use Rattle.l2_cnf.specs.Logic.{IsWithin};
ghost use Rattle.l2_rup.specs.Checked.{known_of};

use crate::known::Known;
use l2_cnf::{Lit, Trail};

/// Whether all literals are false.
fn all_false(trail: &Trail, clause: &[Lit]) -> bool
    requires { IsWithin trail.now.variables clause.now }
    ensures { IsTrue result ↔ IsAllFalse trail.now.literals clause.now }
{
    for literal in clause {
        if !trail.is_false(*literal) {
            return false;
        }
    }
    true
}

/// The index of the first literal that isn't false, or the length.
fn first_live(trail: &Trail, clause: &[Lit]) -> usize
    requires { IsWithin trail.now.variables clause.now }
    ensures within { result ≤ length clause.now }
    ensures before { (k : ℕ) → k < result
        → Contains trail.now.literals (neg_ℤ (slice_index_or clause.now k (pos 0))) }
    ensures live { result < length clause.now
        → ¬ Contains trail.now.literals (neg_ℤ (slice_index_or clause.now result (pos 0))) }
{
    for (i, literal) in clause.iter().enumerate() {
        if !trail.is_false(*literal) {
            return i;
        }
    }
    clause.len()
}

/// Whether all literals but this one are false.
fn others_false(trail: &Trail, clause: &[Lit], literal: Lit) -> bool
    requires { IsWithin trail.now.variables clause.now }
    ensures { IsTrue result
        ↔ ((m : ℤ) → Contains clause.now m → m ≢ literal → Contains trail.now.literals (neg_ℤ m)) }
{
    for other in clause {
        if *other != literal && !trail.is_false(*other) {
            return false;
        }
    }
    true
}

/// The literal that alone isn't false, if there is one and it is unset.
fn unit_of(trail: &Trail, clause: &[Lit]) -> Option<Lit>
    requires { IsWithin trail.now.variables clause.now }
    ensures { MatchOption result
        ((l : ℤ) → ¬ IsUnit trail.now.literals clause.now l)
        (λ l. IsUnit trail.now.literals clause.now l) }
{
    let i = first_live(trail, clause);
    if i == clause.len() {
        return None;
    }
    let literal = clause[i];
    if !trail.is_true(literal) && others_false(trail, clause, literal) {
        Some(literal)
    } else {
        None
    }
}

/// Makes that literal true, if there is one.
fn advance(trail: &mut Trail, clause: &[Lit]) -> bool
    requires { IsWithin trail.old.variables clause.now }
    ensures variables { trail.new.variables ≡ trail.old.variables }
    ensures moved { OnTrue result ((l : ℤ) × (IsUnit trail.old.literals clause.now l)
        × (trail.new.literals ≡ trail.old.literals ++ l ∷ [])) }
    ensures stuck { OnFalse result ((l : ℤ) → ¬ IsUnit trail.old.literals clause.now l) }
{
    match unit_of(trail, clause) {
        Some(literal) => {
            trail.push(literal);
            true
        }
        None => false,
    }
}

/// Makes the negation of each literal true, unless a variable is out of range or stands twice.
pub fn negate(trail: &mut Trail, clause: &[Lit]) -> bool
    requires { trail.old.literals ≡ [] }
    ensures variables { trail.new.variables ≡ trail.old.variables }
    ensures cases { MatchBool result
        ((trail.new.literals ≡ map neg_ℤ clause.now)
        × (AreOver trail.old.variables clause.now) × (AreApart clause.now))
        (¬ ((AreOver trail.old.variables clause.now) × (AreApart clause.now))) }
{
    for literal in clause {
        let var = literal.var();
        if var > trail.variables() || trail.has(var) {
            return false;
        }
        trail.push(literal.negated());
    }
    true
}

/// Whether the hints lead to a clause whose literals are all false.
pub fn follow(known: &Known<'_>, trail: &mut Trail, hints: &[u64]) -> bool
    requires { trail.old.variables ≡ known.now.variables }
    ensures variables { trail.new.variables ≡ trail.old.variables }
    ensures leads { IsTrue result ↔ Leads (known_of known.now) trail.old.literals hints.now }
{
    for i in 0..hints.len() {
        let hint = hints[i];
        if hint < 1 || hint > known.len() {
            return false;
        }
        let clause = known.clause(hint - 1);
        if i + 1 == hints.len() {
            return all_false(trail, clause);
        }
        if !advance(trail, clause) {
            return false;
        }
    }
    false
}
