ghost use Rattle.std.specs.Prelude.{◌≡◌, ◌≢◌, ◌⊎◌, ◌≤◌, ◌<◌, ◌^◌, ◌+◌, ◌*◌, ◌++◌, ◌∷◌, [], ℕ, ℤ, pos, neg_ℤ, nat_abs, List, length, take, IfOk, OnOk, OnErr, IsTrue, ◌↔◌, Contains, slice_index_or, MatchOption, MatchBool};
ghost use Rattle.l2_cnf.specs.Trail.{AreOver};
ghost use Rattle.l2_watch.specs.Past.{Past, IsGrown};
ghost use Rattle.l2_watch.specs.Watch.{IsPair};
ghost use Rattle.l2_watch.specs.Visit.{pair_of, IsRaised, AreFalse, HasSingles};

use crate::entry::ShortLit;
use crate::history::History;
use l2_cnf::ClauseList;

/// Makes the literal of a clause that has one true. It answers whether the clause has only literals that are false.
fn raise_one(
    clauses: &ClauseList,
    history: &mut History,
    pair: (ShortLit, ShortLit),
    r: u64,
) -> bool
    requires within { r < length clauses.now }
    requires pair { (slice_index_or clauses.now r [] ≡ []) ⊎ IsPair (slice_index_or clauses.now r []) pair.0 pair.1 }
    requires over { AreOver history.old.variables (slice_index_or clauses.now r []) }
    requires count { length history.old.reasons ≡ length history.old.literals }
    ensures grown { IsGrown clauses.now history.old history.new }
    ensures cases { MatchBool result (AreFalse history.new.literals (slice_index_or clauses.now r [])) (IsRaised (slice_index_or clauses.now r []) history.new.literals pair) }
{
    let clause = clauses.clause(r);
    if clause.is_empty() {
        return true;
    }
    let single = pair.0 == pair.1;
    let first = pair.0.literal();
    if !single || history.is_true(first) {
        return false;
    }
    if history.is_false(first) {
        return true;
    }
    let _count = clauses.len();
    history.push(first, r + 1);
    false
}

// The same of the clause at this index, if there is one.
fn raise_at(
    clauses: &ClauseList,
    pairs: &[(ShortLit, ShortLit)],
    history: &mut History,
    r: u64,
) -> bool
    requires count { length pairs.now ≡ length clauses.now }
    requires pair { (r : ℕ) → r < length clauses.now → (slice_index_or clauses.now r [] ≡ []) ⊎ IsPair (slice_index_or clauses.now r []) (pair_of pairs.now r).0 (pair_of pairs.now r).1 }
    requires over { (clause : List ℤ) → Contains clauses.now clause → AreOver history.old.variables clause }
    requires reasons { length history.old.reasons ≡ length history.old.literals }
    ensures grown { IsGrown clauses.now history.old history.new }
    ensures cases { MatchBool result
        ((r < length clauses.now) × AreFalse history.new.literals (slice_index_or clauses.now r []))
        (r < length clauses.now → IsRaised (slice_index_or clauses.now r []) history.new.literals (pair_of pairs.now r)) }
{
    if r >= clauses.len() {
        return false;
    }
    raise_one(clauses, history, pairs[r as usize], r)
}

/// Makes the literal of each clause that has one true. It answers a clause whose literals are all false, if it comes upon one.
/// It looks at `singles` alone, which has all clauses of one literal or none.
pub fn raise(
    clauses: &ClauseList,
    pairs: &[(ShortLit, ShortLit)],
    singles: &[u64],
    history: &mut History,
) -> Option<u64>
    requires singles { HasSingles clauses.now singles.now }
    requires count { length pairs.now ≡ length clauses.now }
    requires pair { (r : ℕ) → r < length clauses.now → (slice_index_or clauses.now r [] ≡ []) ⊎ IsPair (slice_index_or clauses.now r []) (pair_of pairs.now r).0 (pair_of pairs.now r).1 }
    requires over { (clause : List ℤ) → Contains clauses.now clause → AreOver history.old.variables clause }
    requires reasons { length history.old.reasons ≡ length history.old.literals }
    ensures grown { IsGrown clauses.now history.old history.new }
    ensures cases { MatchOption result
        ((r : ℕ) → r < length clauses.now → IsRaised (slice_index_or clauses.now r []) history.new.literals (pair_of pairs.now r))
        (λ r. (r < length clauses.now) × AreFalse history.new.literals (slice_index_or clauses.now r [])) }
{
    for i in 0..singles.len() {
        let r = singles[i];
        if raise_at(clauses, pairs, history, r) {
            return Some(r);
        }
    }
    None
}
