ghost use Rattle.std.specs.Prelude.{◌≡◌, ◌≢◌, ◌≤◌, ◌<◌, ◌+◌, ◌*◌, ◌++◌, ◌∷◌, [], ℕ, ℤ, pos, neg_ℤ, nat_abs, List, length, map, take, IfOk, OnOk, OnErr, IsTrue, ◌↔◌, Contains, slice_index_or, slice_set, MatchOption, MatchBool};
ghost use Rattle.l2_cnf.specs.Trail.{AreOver};
ghost use Rattle.l2_watch.specs.Visit.{items_of, entries_of, entered, AreMore};
ghost use Rattle.l2_watch.specs.Look.{IsLook};

use crate::entry::Entry;
use crate::history::History;
use l2_cnf::Lit;
use std::alloc::AllocError;

/// What a look at a clause whose one watched literal became false found, while the other one isn't true.
#[derive(Clone, Copy)]
pub enum Look {
    /// The other watched literal alone isn't false, and it is unset.
    Implies,
    /// This literal isn't false, and may be watched.
    Moves(Lit),
    /// All are false.
    Conflict,
}

/// A literal other than this that isn't false.
fn other_live(history: &History, clause: &[Lit], other: Lit) -> Option<Lit>
    requires { AreOver history.now.variables clause.now }
    ensures { MatchOption result
        ((m : ℤ) → Contains clause.now m → m ≢ other → Contains history.now.literals (neg_ℤ m))
        (λ m. (Contains clause.now m) × (m ≢ other) × (¬ Contains history.now.literals (neg_ℤ m))) }
{
    for literal in clause {
        if *literal != other && !history.is_false(*literal) {
            return Some(*literal);
        }
    }
    None
}

/// Looks at a clause for a literal to watch beside the other one.
pub fn look_at(history: &History, clause: &[Lit], other: Lit) -> Look
    requires over { AreOver history.now.variables clause.now }
    requires stands { Contains clause.now other }
    ensures { IsLook history.now.literals clause.now other result }
{
    match other_live(history, clause, other) {
        Some(m) => Look::Moves(m),
        None if history.is_false(other) => Look::Conflict,
        None => Look::Implies,
    }
}

/// Puts an entry into a list.
pub fn add_to(lists: &mut Vec<Vec<Entry>>, at: usize, entry: Entry) -> Result<(), AllocError>
    requires { at < length lists.old.items }
    ensures ok { OnOk result (entries_of lists.new.items ≡ entered (entries_of lists.old.items) at entry) }
    ensures err { OnErr result (entries_of lists.new.items ≡ entries_of lists.old.items) }
    ensures more { AreMore (items_of lists.old.items) (items_of lists.new.items) }
    ensures there { OnOk result (Contains (slice_index_or (items_of lists.new.items) at []) entry.clause) }
    ensures len { length lists.new.items ≡ length lists.old.items }
{
    let list = &mut lists[at];
    match list.push(entry) {
        Ok(()) => Ok(()),
        Err(_) => Err(AllocError),
    }
}

/// Takes the entry out that was put into a list last.
pub fn take_back(lists: &mut Vec<Vec<Entry>>, at: usize)
    requires { at < length lists.old.items }
    ensures back { (before : List (List Entry)) (entry : Entry) → entries_of lists.old.items ≡ entered before at entry → entries_of lists.new.items ≡ before }
    ensures len { length lists.new.items ≡ length lists.old.items }
{
    let list = &mut lists[at];
    list.pop();
}
