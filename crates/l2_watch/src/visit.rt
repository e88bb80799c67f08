ghost use Rattle.std.specs.Prelude.{◌≡◌, ◌≢◌, ◌⊎◌, ◌≤◌, ◌<◌, ◌^◌, ◌+◌, ◌*◌, ◌++◌, ◌∷◌, [], ℕ, ℤ, pos, neg_ℤ, nat_abs, List, length, map, take, drop, IfOk, OnOk, OnErr, IsTrue, ◌↔◌, Contains, slice_index_or, slice_set, MatchOption, MatchBool, Ok, Some, None};
ghost use Rattle.l2_watch.specs.Past.{Past, IsGrown};
ghost use Rattle.l2_watch.specs.Watch.{IsConsistent, IsPair, IsGuarded};
ghost use Rattle.l2_watch.specs.Visit.{items_of, entries_of, indices_of, ArePairs, AreFound, AreVisited, AreGuarded, AreListed, AreEntries, AreAllEntries, IsEntry, KeepsParts, IsOther};
ghost use Rattle.l2_watch.specs.Handled.{IsHandled};

use crate::entry::{Entry, ShortLit};
use crate::history::History;
use crate::looks::{Look, add_to, look_at};
use l2_cnf::{ClauseList, Lit};
use std::alloc::AllocError;

/// What became of a clause in the list of a literal that became false.
#[derive(Clone, Copy)]
pub enum Step {
    /// It stays in the list, and this literal of it is true.
    Keeps(ShortLit),
    /// It doesn't watch that literal any more.
    Moved,
    /// Its literals are all false.
    Conflict,
}

/// The other of two literals.
fn other_of(pair: (ShortLit, ShortLit), a: Lit) -> Option<Lit>
    ensures { MatchOption result ((pair.0 ≢ a) × (pair.1 ≢ a)) (λ o. IsOther pair a o) }
{
    let (first, second) = (pair.0.literal(), pair.1.literal());
    if first == a {
        Some(second)
    } else if second == a {
        Some(first)
    } else {
        None
    }
}

/// Deals with one clause in the list of a, which is false.
pub fn handle(
    clauses: &ClauseList,
    history: &mut History,
    pairs: &mut Vec<(ShortLit, ShortLit)>,
    lists: &mut Vec<Vec<Entry>>,
    seen: usize,
    a: Lit,
    entry: Entry,
) -> Result<Step, AllocError>
    requires false_one { Contains history.old.literals (neg_ℤ a) }
    requires consistent { IsConsistent history.old.literals }
    requires count { length history.old.reasons ≡ length history.old.literals }
    requires seen { seen ≤ length history.old.literals }
    requires pairs { ArePairs clauses.now history.old.variables pairs.old.items }
    requires found { AreFound pairs.old.items (items_of lists.old.items) a }
    requires guarded { AreGuarded clauses.now pairs.old.items (take seen history.old.literals) history.old.literals }
    requires lists { 2 * history.old.variables + 2 ≤ length lists.old.items }
    requires small { history.old.variables < 2 ^ 31 }
    requires entry { IsEntry clauses.now entry }
    requires entered { AreAllEntries clauses.now (entries_of lists.old.items) }
    ensures grown { IsGrown clauses.now history.old history.new }
    ensures handled { IfOk result (IsHandled clauses.now history.old.literals history.new.literals pairs.old.items pairs.new.items a entry.clause) }
    ensures same { OnErr result ((history.new ≡ history.old) × (pairs.new.items ≡ pairs.old.items)) }
    ensures pairs { ArePairs clauses.now history.old.variables pairs.new.items }
    ensures found { AreFound pairs.new.items (items_of lists.new.items) a }
    ensures guarded { AreGuarded clauses.now pairs.new.items (take seen history.old.literals) history.new.literals }
    ensures parts { KeepsParts clauses.now history.old.literals pairs.old.items pairs.new.items }
    ensures lists { length lists.new.items ≡ length lists.old.items }
    ensures entered { AreAllEntries clauses.now (entries_of lists.new.items) }
{
    if history.is_true(entry.blocker.literal()) {
        return Ok(Step::Keeps(entry.blocker));
    }
    let r = entry.clause as usize;
    let Some(other) = other_of(pairs[r], a) else {
        return Ok(Step::Moved);
    };
    let blocker = ShortLit::of(other);
    if history.is_true(other) {
        return Ok(Step::Keeps(blocker));
    }
    match look_at(history, clauses.clause(r as u64), other) {
        Look::Conflict => Ok(Step::Conflict),
        Look::Implies => {
            history.push(other, r as u64 + 1);
            Ok(Step::Keeps(blocker))
        }
        Look::Moves(m) => {
            let clause = entry.clause;
            add_to(lists, m.code() as usize, Entry { blocker, clause })?;
            pairs[r] = (blocker, ShortLit::of(m));
            Ok(Step::Moved)
        }
    }
}

/// Takes out what lies between two places of a list.
fn close_gap(list: &mut Vec<Entry>, from: usize, to: usize)
    requires order { from ≤ to }
    requires within { to ≤ length list.old.items }
    ensures { list.new.items ≡ take from list.old.items ++ drop to list.old.items }
{
    let len = list.len() - (to - from);
    list.copy_within(to.., from);
    list.truncate(len);
}

/// Goes through the list of a, which is false, and keeps in it the clauses that still watch a.
/// It answers a clause whose literals are all false, if it comes upon one.
pub fn visit_list(
    clauses: &ClauseList,
    history: &mut History,
    pairs: &mut Vec<(ShortLit, ShortLit)>,
    lists: &mut Vec<Vec<Entry>>,
    seen: usize,
    a: Lit,
    list: &mut Vec<Entry>,
) -> Result<Option<u64>, AllocError>
    requires false_one { Contains history.old.literals (neg_ℤ a) }
    requires consistent { IsConsistent history.old.literals }
    requires count { length history.old.reasons ≡ length history.old.literals }
    requires seen { seen ≤ length history.old.literals }
    requires pairs { ArePairs clauses.now history.old.variables pairs.old.items }
    requires found { AreFound pairs.old.items (items_of lists.old.items) a }
    requires guarded { AreGuarded clauses.now pairs.old.items (take seen history.old.literals) history.old.literals }
    requires lists { 2 * history.old.variables + 2 ≤ length lists.old.items }
    requires small { history.old.variables < 2 ^ 31 }
    requires entered { AreAllEntries clauses.now (entries_of lists.old.items) }
    requires visited { AreVisited clauses.now pairs.old.items history.old.literals a [] (indices_of list.old.items) }
    requires entries { AreEntries clauses.now list.old.items }
    ensures grown { IsGrown clauses.now history.old history.new }
    ensures pairs { ArePairs clauses.now history.old.variables pairs.new.items }
    ensures found { AreFound pairs.new.items (items_of lists.new.items) a }
    ensures guarded { AreGuarded clauses.now pairs.new.items (take seen history.old.literals) history.new.literals }
    ensures parts { KeepsParts clauses.now history.old.literals pairs.old.items pairs.new.items }
    ensures listed { AreListed pairs.new.items a (indices_of list.new.items) }
    ensures lists { length lists.new.items ≡ length lists.old.items }
    ensures entered { AreAllEntries clauses.now (entries_of lists.new.items) }
    ensures none { result ≡ Ok None → AreVisited clauses.now pairs.new.items history.new.literals a (indices_of list.new.items) [] }
    ensures entries { AreEntries clauses.now list.new.items }
    ensures conflict { (r : ℕ) → result ≡ Ok (Some r) → (r < length clauses.now) × ((m : ℤ) → Contains (slice_index_or clauses.now r []) m → Contains history.new.literals (neg_ℤ m)) }
{
    let mut kept = 0;
    for i in 0..list.len() {
        let entry = list[i];
        let clause = entry.clause;
        match handle(clauses, history, pairs, lists, seen, a, entry)? {
            Step::Keeps(blocker) => {
                list[kept] = Entry { blocker, clause };
                kept += 1;
            }
            Step::Moved => {}
            Step::Conflict => {
                close_gap(list, kept, i);
                return Ok(Some(u64::from(clause)));
            }
        }
    }
    list.truncate(kept);
    Ok(None)
}
