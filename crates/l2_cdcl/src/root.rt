ghost use Rattle.std.specs.Prelude.{◌≡◌, ◌<◌, ◌≤◌, ◌+◌, ◌-◌, [], ℕ, ℤ, pos, nat_abs, Bool, true, List, length, reverse, Contains, slice_index_or, OnOk, IfOk};
ghost use Rattle.l2_cnf.specs.Steps.{Leads};
ghost use Rattle.l2_cdcl.specs.Analysis.{IsMarked};
ghost use Rattle.l2_cdcl.specs.Chain.{Chain, IsFrom, IsMarkedBefore};
ghost use Rattle.l2_cdcl.specs.Level.{IsRootConflict};

use crate::marks::Marks;
use l2_cnf::Lit;
use l2_watch::Watch;
use std::alloc::{AllocError, Global};

// Marks the variables of a clause.
fn mark_all(marks: &mut Marks, clause: &[Lit])
    requires { (m : ℤ) → Contains clause.now m → nat_abs m < length marks.old }
    ensures len { length marks.new ≡ length marks.old }
    ensures more { (v : ℕ) → IsMarked marks.old v → IsMarked marks.new v }
    ensures all { (m : ℤ) → Contains clause.now m → IsMarked marks.new (nat_abs m) }
{
    for literal in clause {
        marks.mark(literal.var());
    }
}

// Marks of variables, none of which is marked.
fn no_marks(watch: &Watch, alloc: Global) -> Result<Marks, AllocError>
    ensures { IfOk result (λ m. watch.now.variables < length m) }
{
    watch.facts();
    Marks::new(alloc, watch.variables())
}

// Goes back over the literal at a place: where its variable is marked, notes what made it true and marks what this needs.
fn trace_root(
    watch: &Watch,
    marks: &mut Marks,
    hints: &mut Vec<u64>,
    k: usize,
) -> Result<(), AllocError>
    requires levels { watch.now.levels ≡ [] }
    requires within { k < length watch.now.past.literals }
    requires room { watch.now.variables < length marks.old }
    requires chain { Chain watch.now.clauses (IsMarkedBefore watch.now.past.literals (k + 1) marks.old) (IsFrom watch.now.past.literals (k + 1)) (reverse hints.old.items) }
    ensures len { length marks.new ≡ length marks.old }
    ensures chain { OnOk result (Chain watch.now.clauses (IsMarkedBefore watch.now.past.literals k marks.new) (IsFrom watch.now.past.literals k) (reverse hints.new.items)) }
{
    watch.facts();
    if !marks.is_marked(watch.literal(k).var()) {
        return Ok(());
    }
    let reason = watch.reason(k);
    hints.push(reason)?;
    mark_all(marks, watch.clause(reason - 1));
    Ok(())
}

// The hints of the empty clause, last first.
fn traced_hints(watch: &Watch, conflict: u64, alloc: Global) -> Result<Vec<u64>, AllocError>
    requires { IsRootConflict watch.now conflict }
    ensures { IfOk result (λ h. Leads watch.now.clauses [] (reverse h.items)) }
{
    watch.facts();
    let _count = watch.count();
    let mut marks = no_marks(watch, alloc)?;
    let mut hints = Vec::new(alloc);
    hints.push(conflict + 1)?;
    mark_all(&mut marks, watch.clause(conflict));
    let mut k = watch.len();
    while k > 0 {
        trace_root(watch, &mut marks, &mut hints, k - 1)?;
        k -= 1;
    }
    Ok(hints)
}

/// The hints of the empty clause: what made each literal true that the conflict needs, in order, and then the clause whose
/// literals are all false.
pub fn root_hints(
    watch: &Watch,
    kept: bool,
    conflict: u64,
    alloc: Global,
) -> Result<Vec<u64>, AllocError>
    requires { IsRootConflict watch.now conflict }
    ensures { IfOk result (λ h. kept ≡ true → Leads watch.now.clauses [] h.items) }
{
    if !kept {
        return Ok(Vec::new(alloc));
    }
    let mut hints = traced_hints(watch, conflict, alloc)?;
    hints.reverse();
    Ok(hints)
}
