ghost use Rattle.std.specs.Prelude.{◌≡◌, ◌≢◌, ◌⊎◌, ◌≤◌, ◌<◌, ◌^◌, ◌+◌, ◌*◌, ◌++◌, ◌∷◌, [], ℕ, ℤ, pos, neg_ℤ, nat_abs, List, length, take, IfOk, OnOk, OnErr, IsTrue, ◌↔◌, Contains, slice_index_or};
ghost use Rattle.l2_cnf.specs.Lit.{code_of};
ghost use Rattle.l2_cnf.specs.Trail.{AreOver};
ghost use Rattle.l2_watch.specs.Watch.{IsPair};
ghost use Rattle.l2_watch.specs.Visit.{items_of, entries_of, entered_both, list_of, AreMore, AreAllEntries};

use crate::entry::{Entry, ShortLit};
use crate::looks::{add_to, take_back};
use l2_cnf::{ClauseList, Lit};
use std::alloc::{AllocError, Global};

/// The greatest variable of a clause, and at least 1.
pub fn greatest(clause: &[Lit]) -> u64
    ensures some { 1 ≤ result }
    ensures small { result < 2 ^ 62 }
    ensures over { AreOver result clause.now }
{
    let mut most = 1;
    for literal in clause {
        if literal.var() > most {
            most = literal.var();
        }
    }
    most
}

/// The first literal of a clause, and the first other one, if there is one. An empty clause has the first variable twice.
pub fn first_pair(clause: &[Lit]) -> (Lit, Lit)
    ensures pair { (clause.now ≡ []) ⊎ IsPair clause.now result.0 result.1 }
    ensures none { clause.now ≡ [] → (result.0 ≡ pos 1) × (result.1 ≡ pos 1) }
{
    if clause.is_empty() {
        return (Lit::new(1, true), Lit::new(1, true));
    }
    let first = clause[0];
    for literal in clause {
        if *literal != first {
            return (first, *literal);
        }
    }
    (first, first)
}

/// Notes the clause that comes next where its pair is one literal.
pub fn note_single(singles: &mut Vec<u64>, a: Lit, b: Lit, clause: u64) -> Result<(), AllocError>
    ensures kept { (r : ℕ) → Contains singles.old.items r → Contains singles.new.items r }
    ensures noted { OnOk result (a ≡ b → Contains singles.new.items clause) }
{
    if a == b {
        singles.push(clause)?;
    }
    Ok(())
}

/// Makes the lists so many, if they are fewer.
pub fn widen(alloc: Global, lists: &mut Vec<Vec<Entry>>, count: usize) -> Result<(), AllocError>
    ensures more { AreMore (items_of lists.old.items) (items_of lists.new.items) }
    ensures len { OnOk result (count ≤ length lists.new.items) }
    ensures longer { length lists.old.items ≤ length lists.new.items }
    ensures entered { (clauses : List (List ℤ)) → AreAllEntries clauses (entries_of lists.old.items) → AreAllEntries clauses (entries_of lists.new.items) }
{
    while lists.len() < count {
        lists.push(Vec::new(alloc))?;
    }
    Ok(())
}

// Puts the entries of a clause into the lists of the two literals that watch it, or none.
fn enter(lists: &mut Vec<Vec<Entry>>, a: Lit, b: Lit, clause: u32) -> Result<(), AllocError>
    requires first { code_of a < length lists.old.items }
    requires second { code_of b < length lists.old.items }
    requires first_small { nat_abs a < 2 ^ 31 }
    requires second_small { nat_abs b < 2 ^ 31 }
    ensures ok { OnOk result (entries_of lists.new.items ≡ entered_both (entries_of lists.old.items) a b clause) }
    ensures err { OnErr result (entries_of lists.new.items ≡ entries_of lists.old.items) }
    ensures len { length lists.new.items ≡ length lists.old.items }
{
    let first = Entry {
        blocker: ShortLit::of(b),
        clause,
    };
    let second = Entry {
        blocker: ShortLit::of(a),
        clause,
    };
    add_to(lists, a.code() as usize, first)?;
    if let Err(error) = add_to(lists, b.code() as usize, second) {
        take_back(lists, a.code() as usize);
        return Err(error);
    }
    Ok(())
}

// Puts a clause behind the others, and its pair behind theirs, or neither.
fn store(
    clauses: &mut ClauseList,
    pairs: &mut Vec<(ShortLit, ShortLit)>,
    clause: &[Lit],
    a: Lit,
    b: Lit,
) -> Result<(), AllocError>
    requires first_small { nat_abs a < 2 ^ 31 }
    requires second_small { nat_abs b < 2 ^ 31 }
    ensures clauses { OnOk result (clauses.new ≡ clauses.old ++ clause.now ∷ []) }
    ensures pairs { OnOk result (pairs.new.items ≡ pairs.old.items ++ (a, b) ∷ []) }
    ensures same { OnErr result ((clauses.new ≡ clauses.old) × (pairs.new.items ≡ pairs.old.items)) }
{
    pairs.push((ShortLit::of(a), ShortLit::of(b)))?;
    match clauses.push(clause) {
        Ok(()) => Ok(()),
        Err(_) => {
            pairs.pop();
            Err(AllocError)
        }
    }
}

/// Puts a clause behind the others, watched by two literals. There is room for 2^32 clauses.
pub fn attach(
    clauses: &mut ClauseList,
    pairs: &mut Vec<(ShortLit, ShortLit)>,
    lists: &mut Vec<Vec<Entry>>,
    clause: &[Lit],
    a: Lit,
    b: Lit,
) -> Result<(), AllocError>
    requires first { code_of a < length lists.old.items }
    requires second { code_of b < length lists.old.items }
    requires first_small { nat_abs a < 2 ^ 31 }
    requires second_small { nat_abs b < 2 ^ 31 }
    requires stands { (clause.now ≡ []) ⊎ ((Contains clause.now a) × (Contains clause.now b)) }
    requires entered { AreAllEntries clauses.old (entries_of lists.old.items) }
    ensures clauses { OnOk result (clauses.new ≡ clauses.old ++ clause.now ∷ []) }
    ensures pairs { OnOk result (pairs.new.items ≡ pairs.old.items ++ (a, b) ∷ []) }
    ensures same { OnErr result ((clauses.new ≡ clauses.old) × (pairs.new.items ≡ pairs.old.items)) }
    ensures more { AreMore (items_of lists.old.items) (items_of lists.new.items) }
    ensures len { length lists.new.items ≡ length lists.old.items }
    ensures found { OnOk result ((Contains (list_of (items_of lists.new.items) a) (length clauses.old)) × (Contains (list_of (items_of lists.new.items) b) (length clauses.old))) }
    ensures entered { AreAllEntries clauses.new (entries_of lists.new.items) }
{
    let count = clauses.len();
    if count >= 1 << 32 {
        return Err(AllocError);
    }
    enter(lists, a, b, count as u32)?;
    if let Err(error) = store(clauses, pairs, clause, a, b) {
        take_back(lists, b.code() as usize);
        take_back(lists, a.code() as usize);
        return Err(error);
    }
    Ok(())
}
