ghost use Rattle.std.specs.Prelude.{◌≡◌, ◌≢◌, ◌⊎◌, ◌≤◌, ◌<◌, ◌+◌, ◌-◌, [], ℕ, ℤ, pos, neg_ℤ, nat_abs, Bool, true, List, length, reverse, Contains, slice_index_or, OnOk, IfOk, MatchOption, None};
ghost use Rattle.std.specs.Bool.{OnTrue};
ghost use Rattle.l2_cnf.specs.Trail.{AreOver};
ghost use Rattle.l2_watch.specs.Visit.{AreFalse};
ghost use Rattle.l2_watch.specs.Past.{IsReason};
ghost use Rattle.l2_watch.specs.Board.{start_of, AreCaused};
ghost use Rattle.l2_cdcl.specs.Analysis.{IsMarked, AreUnmarked, IsFalseBefore, IsOpen, IsAside, IsMore, HasVariable, IsTraced, IsLeft, IsPoint};
ghost use Rattle.l2_cdcl.specs.Chain.{Chain, IsLater};
ghost use Rattle.l2_cdcl.specs.Level.{IsPresent};

use crate::hints::Hints;
use crate::marks::Marks;
use l2_cnf::Lit;
use l2_order::Order;
use l2_watch::Watch;
use smallvec::SmallVec;
use std::alloc::AllocError;

/// The literals that are put aside for the clause that is learnt.
pub type Aside = SmallVec<Lit, 16>;

/// Where literals stand: those before `low` need no care, and the present level begins at `start`.
#[derive(Clone, Copy)]
pub struct Bounds {
    pub low: usize,
    pub start: usize,
}

/// Marks the variable of a literal that is false, unless it is the one to be left out, and puts it aside where it became false below the present level. It answers
/// how many literals of the present level were marked.
fn mark_one(
    watch: &Watch,
    marks: &mut Marks,
    order: &mut Order,
    at: Bounds,
    literal: Lit,
    but: Lit,
    aside: &mut Aside,
) -> Result<u64, AllocError>
    requires false_one { literal ≢ but → Contains watch.now.past.literals (neg_ℤ literal) }
    requires room { watch.now.variables < length marks.old }
    requires start { at.start ≤ length watch.now.past.literals }
    requires put { IsAside watch.now.past.literals at.low at.start marks.old aside.old.items }
    ensures len { length marks.new ≡ length marks.old }
    ensures more { OnOk result (IsMore marks.old marks.new aside.old.items aside.new.items) }
    ensures put { OnOk result (IsAside watch.now.past.literals at.low at.start marks.new aside.new.items) }
    ensures open { OnOk result (literal ≢ but → IsOpen watch.now.past.literals at.low at.start (length watch.now.past.literals) marks.new aside.new.items literal) }
    ensures from { OnOk result ((v : ℕ) → IsMarked marks.new v → IsMarked marks.old v ⊎ (nat_abs literal ≡ v)) }
{
    if literal == but {
        return Ok(0);
    }
    watch.facts();
    let var = literal.var();
    let place = watch.place(literal.negated());
    if place < at.low {
        return Ok(0);
    }
    if marks.is_marked(var) {
        return Ok(0);
    }
    if place >= at.start {
        marks.mark(var);
        order.bump(var);
        return Ok(1);
    }
    aside.push(literal)?;
    marks.mark(var);
    order.bump(var);
    Ok(0)
}

/// Marks the variables of a clause's literals but one. The others are false. It answers how many literals of the present level
/// were marked.
pub fn mark_others(
    watch: &Watch,
    marks: &mut Marks,
    order: &mut Order,
    at: Bounds,
    clause: &[Lit],
    but: Lit,
    aside: &mut Aside,
) -> Result<u64, AllocError>
    requires false_ones { (m : ℤ) → Contains clause.now m → m ≢ but → Contains watch.now.past.literals (neg_ℤ m) }
    requires room { watch.now.variables < length marks.old }
    requires start { at.start ≤ length watch.now.past.literals }
    requires put { IsAside watch.now.past.literals at.low at.start marks.old aside.old.items }
    ensures len { length marks.new ≡ length marks.old }
    ensures more { OnOk result (IsMore marks.old marks.new aside.old.items aside.new.items) }
    ensures put { OnOk result (IsAside watch.now.past.literals at.low at.start marks.new aside.new.items) }
    ensures open { OnOk result ((m : ℤ) → Contains clause.now m → m ≢ but → IsOpen watch.now.past.literals at.low at.start (length watch.now.past.literals) marks.new aside.new.items m) }
    ensures from { OnOk result ((v : ℕ) → IsMarked marks.new v → IsMarked marks.old v ⊎ ((m : ℤ) × (Contains clause.now m) × (nat_abs m ≡ v))) }
{
    let mut count = 0u64;
    for literal in clause {
        count = count.saturating_add(mark_one(watch, marks, order, at, *literal, but, aside)?);
    }
    Ok(count)
}

/// The last place before the end, and not before the start, whose variable is marked.
fn last_marked(watch: &Watch, marks: &Marks, start: usize, end: usize) -> Option<usize>
    requires within { end ≤ length watch.now.past.literals }
    requires room { watch.now.variables < length marks.now }
    ensures { MatchOption result (AreUnmarked watch.now.past.literals marks.now start end) (λ k. (start ≤ k) × (k < end) × (AreUnmarked watch.now.past.literals marks.now (k + 1) end) × IsMarked marks.now (nat_abs (slice_index_or watch.now.past.literals k (pos 0)))) }
{
    watch.facts();
    let mut k = end;
    while k > start {
        if marks.is_marked(watch.literal(k - 1).var()) {
            return Some(k - 1);
        }
        k -= 1;
    }
    None
}

/// How far a conflict was traced back: the place that is open last, and a guess how many of the present level are open.
#[derive(Clone, Copy)]
pub struct Traced {
    pub place: usize,
    pub open: u64,
}

// The last place that is marked, where there is one.
fn last_open(watch: &Watch, marks: &Marks, start: usize, end: usize) -> usize
    requires within { end ≤ length watch.now.past.literals }
    requires room { watch.now.variables < length marks.now }
    requires some { ¬ AreUnmarked watch.now.past.literals marks.now start end }
    ensures first { start ≤ result }
    ensures last { result < end }
    ensures none { AreUnmarked watch.now.past.literals marks.now (result + 1) end }
    ensures here { IsMarked marks.now (nat_abs (slice_index_or watch.now.past.literals result (pos 0))) }
{
    match last_marked(watch, marks, start, end) {
        Some(k) => k,
        None => unreachable!(),
    }
}

// Begins with the clause whose literals are all false.
fn begin(
    watch: &Watch,
    marks: &mut Marks,
    order: &mut Order,
    at: Bounds,
    conflict: u64,
    aside: &mut Aside,
    hints: &mut Hints,
) -> Result<Traced, AllocError>
    requires level { IsPresent watch.now at.low at.start }
    requires conflict { conflict < length watch.now.clauses }
    requires false_ones { AreFalse watch.now.past.literals (slice_index_or watch.now.clauses conflict []) }
    requires room { watch.now.variables < length marks.old }
    requires aside { aside.old.items ≡ [] }
    requires hints { hints.old.numbers ≡ [] }
    ensures len { length marks.new ≡ length marks.old }
    ensures kept { hints.new.kept ≡ hints.old.kept }
    ensures chain { IfOk result (λ t. hints.old.kept ≡ true → Chain watch.now.clauses (IsOpen watch.now.past.literals at.low at.start (t.place + 1) marks.new aside.new.items) (IsLater watch.now.past.literals t.place) (reverse hints.new.numbers)) }
    ensures traced { IfOk result (λ t. IsTraced watch.now.clauses watch.now.past.literals at.low at.start t.place marks.new aside.new.items) }
{
    watch.facts();
    let _count = watch.count();
    hints.note(conflict + 1)?;
    marks.clear();
    let but = watch.literal(watch.len() - 1);
    let open = mark_others(watch, marks, order, at, watch.clause(conflict), but, aside)?;
    let place = last_open(watch, marks, at.start, watch.len());
    Ok(Traced { place, open })
}

// Takes the reason of the last open literal in its place, if it has one.
fn resolve(
    watch: &Watch,
    marks: &mut Marks,
    order: &mut Order,
    at: Bounds,
    traced: Traced,
    aside: &mut Aside,
    hints: &mut Hints,
) -> Result<Option<Traced>, AllocError>
    requires level { IsPresent watch.now at.low at.start }
    requires traced { IsTraced watch.now.clauses watch.now.past.literals at.low at.start traced.place marks.old aside.old.items }
    requires chain { hints.old.kept ≡ true → Chain watch.now.clauses (IsOpen watch.now.past.literals at.low at.start (traced.place + 1) marks.old aside.old.items) (IsLater watch.now.past.literals traced.place) (reverse hints.old.numbers) }
    requires room { watch.now.variables < length marks.old }
    ensures len { length marks.new ≡ length marks.old }
    ensures kept { hints.new.kept ≡ hints.old.kept }
    ensures next { IfOk result (λ o. MatchOption o
        (IsPoint watch.now.clauses watch.now.past.literals at.low at.start traced.place aside.new.items)
        (λ t. (t.place < traced.place) × IsTraced watch.now.clauses watch.now.past.literals at.low at.start t.place marks.new aside.new.items)) }
    ensures put { IfOk result (λ o. o ≡ None → IsAside watch.now.past.literals at.low at.start marks.new aside.new.items) }
    ensures known { IfOk result (λ o. o ≡ None → (v : ℕ) → IsMarked marks.new v → HasVariable watch.now.clauses v) }
    ensures chain { IfOk result (λ o. hints.old.kept ≡ true → MatchOption o
        (Chain watch.now.clauses (IsLeft watch.now.past.literals at.low traced.place aside.new.items) (IsLater watch.now.past.literals traced.place) (reverse hints.new.numbers))
        (λ t. Chain watch.now.clauses (IsOpen watch.now.past.literals at.low at.start (t.place + 1) marks.new aside.new.items) (IsLater watch.now.past.literals t.place) (reverse hints.new.numbers))) }
{
    watch.facts();
    let reason = watch.reason(traced.place);
    if reason == 0 {
        return Ok(None);
    }
    hints.note(reason)?;
    let but = watch.literal(traced.place);
    let more = mark_others(
        watch,
        marks,
        order,
        at,
        watch.clause(reason - 1),
        but,
        aside,
    )?;
    let place = last_open(watch, marks, at.start, traced.place);
    let open = traced.open.saturating_sub(1).saturating_add(more);
    Ok(Some(Traced { place, open }))
}

// Whether nothing of the present level is marked before this place. The guess spares the look.
fn is_point(watch: &Watch, marks: &Marks, at: Bounds, traced: Traced) -> bool
    requires within { traced.place ≤ length watch.now.past.literals }
    requires room { watch.now.variables < length marks.now }
    ensures { OnTrue result (AreUnmarked watch.now.past.literals marks.now at.start traced.place) }
{
    if traced.open > 1 {
        return false;
    }
    match last_marked(watch, marks, at.start, traced.place) {
        Some(_) => false,
        None => true,
    }
}

/// Traces a conflict back to the first point of the present level through which it goes, and puts the literals of lower levels
/// aside, and the clauses by which it went among the hints. It answers the place of that point.
pub fn analyse(
    watch: &Watch,
    marks: &mut Marks,
    order: &mut Order,
    at: Bounds,
    conflict: u64,
    aside: &mut Aside,
    hints: &mut Hints,
) -> Result<usize, AllocError>
    requires level { IsPresent watch.now at.low at.start }
    requires conflict { conflict < length watch.now.clauses }
    requires false_ones { AreFalse watch.now.past.literals (slice_index_or watch.now.clauses conflict []) }
    requires room { watch.now.variables < length marks.old }
    requires aside { aside.old.items ≡ [] }
    requires hints { hints.old.numbers ≡ [] }
    ensures len { length marks.new ≡ length marks.old }
    ensures kept { hints.new.kept ≡ hints.old.kept }
    ensures chain { IfOk result (λ k. hints.old.kept ≡ true → Chain watch.now.clauses (IsLeft watch.now.past.literals at.low k aside.new.items) (IsLater watch.now.past.literals k) (reverse hints.new.numbers)) }
    ensures put { OnOk result (IsAside watch.now.past.literals at.low at.start marks.new aside.new.items) }
    ensures known { OnOk result ((v : ℕ) → IsMarked marks.new v → HasVariable watch.now.clauses v) }
    ensures point { IfOk result (λ k. IsPoint watch.now.clauses watch.now.past.literals at.low at.start k aside.new.items) }
{
    let mut traced = begin(watch, marks, order, at, conflict, aside, hints)?;
    loop {
        if is_point(watch, marks, at, traced) {
            return Ok(traced.place);
        }
        match resolve(watch, marks, order, at, traced, aside, hints)? {
            Some(next) => traced = next,
            None => return Ok(traced.place),
        }
    }
}
