ghost use Rattle.std.specs.Prelude.{◌≡◌, ◌≢◌, ◌⊎◌, ◌≤◌, ◌<◌, ◌+◌, ◌-◌, [], ℕ, ℤ, pos, neg_ℤ, nat_abs, Bool, true, List, length, reverse, Contains, slice_index_or, OnOk, IfOk};
ghost use Rattle.std.specs.Bool.{OnTrue};
ghost use Rattle.l2_cnf.specs.Trail.{AreApart};
ghost use Rattle.l2_watch.specs.Watch.{Refutes};
ghost use Rattle.l2_watch.specs.Visit.{AreFalse};
ghost use Rattle.l2_cdcl.specs.Analysis.{IsMarked, IsFalseBefore, IsAside, IsMore, HasVariable, IsLeft, IsPoint};
ghost use Rattle.l2_cdcl.specs.Chain.{Chain, IsLater, IsResolved};
ghost use Rattle.l2_cdcl.specs.Shortening.{IsKept, IsGone};
ghost use Rattle.l2_cdcl.specs.Level.{IsPresent};

use crate::analysis::{Aside, Bounds, analyse, mark_others};
use crate::hints::Hints;
use crate::marks::Marks;
use crate::redundant::{Notes, redundant_places};
use l2_cnf::Lit;
use l2_order::Order;
use l2_watch::Watch;
use std::alloc::{AllocError, Global};

// Whether a literal that is false needs no care or is marked, or is the one to be left out.
fn is_covered(watch: &Watch, marks: &Marks, low: usize, literal: Lit, but: Lit) -> bool
    requires false_one { literal ≢ but → Contains watch.now.past.literals (neg_ℤ literal) }
    requires room { watch.now.variables < length marks.now }
    ensures { OnTrue result (literal ≢ but → IsFalseBefore watch.now.past.literals low literal ⊎ IsMarked marks.now (nat_abs literal)) }
{
    if literal == but {
        return true;
    }
    watch.facts();
    let place = watch.place(literal.negated());
    if place < low {
        return true;
    }
    marks.is_marked(literal.var())
}

// The same of all literals of a clause.
fn are_covered(watch: &Watch, marks: &Marks, low: usize, clause: &[Lit], but: Lit) -> bool
    requires false_ones { (m : ℤ) → Contains clause.now m → m ≢ but → Contains watch.now.past.literals (neg_ℤ m) }
    requires room { watch.now.variables < length marks.now }
    ensures { OnTrue result ((m : ℤ) → Contains clause.now m → m ≢ but → IsFalseBefore watch.now.past.literals low m ⊎ IsMarked marks.now (nat_abs m)) }
{
    for literal in clause {
        if !is_covered(watch, marks, low, *literal, but) {
            return false;
        }
    }
    true
}

// Takes the mark off a variable whose literal at a place a clause implies, where the clause's other literals need no care or are
// marked.
fn take_out(
    watch: &Watch,
    marks: &mut Marks,
    at: Bounds,
    point: usize,
    last: usize,
    place: usize,
    hints: &mut Hints,
) -> Result<(), AllocError>
    requires level { IsPresent watch.now at.low at.start }
    requires order { place < last }
    requires last { last ≤ at.start }
    requires point { at.start ≤ point }
    requires room { watch.now.variables < length marks.old }
    requires refutes { Refutes watch.now.clauses (IsKept watch.now.past.literals at.low at.start point marks.old) }
    requires chain { hints.old.kept ≡ true → Chain watch.now.clauses (IsKept watch.now.past.literals at.low at.start point marks.old) (IsGone watch.now.past.literals last at.start point marks.old) (reverse hints.old.numbers) }
    ensures len { length marks.new ≡ length marks.old }
    ensures kept { hints.new.kept ≡ hints.old.kept }
    ensures less { (v : ℕ) → IsMarked marks.new v → IsMarked marks.old v }
    ensures refutes { OnOk result (Refutes watch.now.clauses (IsKept watch.now.past.literals at.low at.start point marks.new)) }
    ensures chain { OnOk result (hints.old.kept ≡ true → Chain watch.now.clauses (IsKept watch.now.past.literals at.low at.start point marks.new) (IsGone watch.now.past.literals place at.start point marks.new) (reverse hints.new.numbers)) }
{
    watch.facts();
    let reason = watch.reason(place);
    let but = watch.literal(place);
    if reason == 0 || !marks.is_marked(but.var()) {
        return Ok(());
    }
    if !are_covered(watch, marks, at.low, watch.clause(reason - 1), but) {
        return Ok(());
    }
    hints.note(reason)?;
    marks.unmark(but.var());
    Ok(())
}

// The same, where the place is before the last one. It answers which is last now.
fn take_next(
    watch: &Watch,
    marks: &mut Marks,
    at: Bounds,
    point: usize,
    last: usize,
    place: usize,
    hints: &mut Hints,
) -> Result<usize, AllocError>
    requires level { IsPresent watch.now at.low at.start }
    requires last { last ≤ at.start }
    requires point { at.start ≤ point }
    requires room { watch.now.variables < length marks.old }
    requires refutes { Refutes watch.now.clauses (IsKept watch.now.past.literals at.low at.start point marks.old) }
    requires chain { hints.old.kept ≡ true → Chain watch.now.clauses (IsKept watch.now.past.literals at.low at.start point marks.old) (IsGone watch.now.past.literals last at.start point marks.old) (reverse hints.old.numbers) }
    ensures most { IfOk result (λ n. n ≤ last) }
    ensures len { length marks.new ≡ length marks.old }
    ensures kept { hints.new.kept ≡ hints.old.kept }
    ensures less { (v : ℕ) → IsMarked marks.new v → IsMarked marks.old v }
    ensures refutes { OnOk result (Refutes watch.now.clauses (IsKept watch.now.past.literals at.low at.start point marks.new)) }
    ensures chain { IfOk result (λ n. hints.old.kept ≡ true → Chain watch.now.clauses (IsKept watch.now.past.literals at.low at.start point marks.new) (IsGone watch.now.past.literals n at.start point marks.new) (reverse hints.new.numbers)) }
{
    if place >= last {
        return Ok(last);
    }
    take_out(watch, marks, at, point, last, place, hints)?;
    Ok(place)
}

// Puts a literal aside where its variable is marked.
fn keep(marks: &Marks, literal: Lit, kept: &mut Aside) -> Result<(), AllocError>
    requires { nat_abs literal < length marks.now }
    ensures more { OnOk result ((m : ℤ) → Contains kept.old.items m → Contains kept.new.items m) }
    ensures here { OnOk result (IsMarked marks.now (nat_abs literal) → Contains kept.new.items literal) }
    ensures part { OnOk result ((m : ℤ) → Contains kept.new.items m → Contains kept.old.items m ⊎ ((literal ≡ m) × (IsMarked marks.now (nat_abs m)))) }
    ensures apart { OnOk result (AreApart kept.old.items → ((m : ℤ) → Contains kept.old.items m → nat_abs m ≢ nat_abs literal) → AreApart kept.new.items) }
{
    if !marks.is_marked(literal.var()) {
        return Ok(());
    }
    kept.push(literal)?;
    Ok(())
}

// The literals that are marked.
fn marked_only(marks: &Marks, aside: &[Lit], alloc: Global) -> Result<Aside, AllocError>
    requires { (m : ℤ) → Contains aside.now m → nat_abs m < length marks.now }
    ensures all { IfOk result (λ a. (m : ℤ) → Contains aside.now m → IsMarked marks.now (nat_abs m) → Contains a.items m) }
    ensures part { IfOk result (λ a. (m : ℤ) → Contains a.items m → (Contains aside.now m) × (IsMarked marks.now (nat_abs m))) }
    ensures apart { AreApart aside.now → IfOk result (λ a. AreApart a.items) }
{
    let mut kept = Aside::new(alloc);
    for literal in aside {
        keep(marks, *literal, &mut kept)?;
    }
    Ok(kept)
}

// Takes literals out of the clause of a point, at these places, latest first, where others of its literals make them false.
fn shorten(
    watch: &Watch,
    marks: &mut Marks,
    at: Bounds,
    point: usize,
    places: &[usize],
    aside: &mut Aside,
    hints: &mut Hints,
    alloc: Global,
) -> Result<(), AllocError>
    requires level { IsPresent watch.now at.low at.start }
    requires point { IsPoint watch.now.clauses watch.now.past.literals at.low at.start point aside.old.items }
    requires put { IsAside watch.now.past.literals at.low at.start marks.old aside.old.items }
    requires chain { hints.old.kept ≡ true → Chain watch.now.clauses (IsLeft watch.now.past.literals at.low point aside.old.items) (IsLater watch.now.past.literals point) (reverse hints.old.numbers) }
    requires room { watch.now.variables < length marks.old }
    ensures len { length marks.new ≡ length marks.old }
    ensures kept { hints.new.kept ≡ hints.old.kept }
    ensures point { OnOk result (IsPoint watch.now.clauses watch.now.past.literals at.low at.start point aside.new.items) }
    ensures chain { OnOk result (hints.old.kept ≡ true → Chain watch.now.clauses (IsLeft watch.now.past.literals at.low point aside.new.items) (IsResolved watch.now.past.literals point aside.new.items) (reverse hints.new.numbers)) }
{
    watch.facts();
    let mut last = at.start;
    for place in places {
        last = take_next(watch, marks, at, point, last, *place, hints)?;
    }
    let kept = marked_only(marks, aside.as_slice(), alloc)?;
    *aside = kept;
    Ok(())
}

// Puts aside what a clause needs that implies the literal at a place, where its variable is marked.
fn take_in(
    watch: &Watch,
    marks: &mut Marks,
    order: &mut Order,
    at: Bounds,
    place: usize,
    aside: &mut Aside,
) -> Result<(), AllocError>
    requires level { IsPresent watch.now at.low at.start }
    requires room { watch.now.variables < length marks.old }
    requires put { IsAside watch.now.past.literals at.low at.start marks.old aside.old.items }
    requires known { (v : ℕ) → IsMarked marks.old v → HasVariable watch.now.clauses v }
    ensures len { length marks.new ≡ length marks.old }
    ensures more { OnOk result (IsMore marks.old marks.new aside.old.items aside.new.items) }
    ensures put { OnOk result (IsAside watch.now.past.literals at.low at.start marks.new aside.new.items) }
    ensures known { OnOk result ((v : ℕ) → IsMarked marks.new v → HasVariable watch.now.clauses v) }
{
    watch.facts();
    if place >= at.start {
        return Ok(());
    }
    let reason = watch.reason(place);
    let but = watch.literal(place);
    if reason == 0 || !marks.is_marked(but.var()) {
        return Ok(());
    }
    mark_others(
        watch,
        marks,
        order,
        at,
        watch.clause(reason - 1),
        but,
        aside,
    )?;
    Ok(())
}

// The same at these places.
fn take_all_in(
    watch: &Watch,
    marks: &mut Marks,
    order: &mut Order,
    at: Bounds,
    places: &[usize],
    aside: &mut Aside,
) -> Result<(), AllocError>
    requires level { IsPresent watch.now at.low at.start }
    requires room { watch.now.variables < length marks.old }
    requires put { IsAside watch.now.past.literals at.low at.start marks.old aside.old.items }
    requires known { (v : ℕ) → IsMarked marks.old v → HasVariable watch.now.clauses v }
    ensures len { length marks.new ≡ length marks.old }
    ensures more { OnOk result (IsMore marks.old marks.new aside.old.items aside.new.items) }
    ensures put { OnOk result (IsAside watch.now.past.literals at.low at.start marks.new aside.new.items) }
    ensures known { OnOk result ((v : ℕ) → IsMarked marks.new v → HasVariable watch.now.clauses v) }
{
    for place in places {
        take_in(watch, marks, order, at, *place, aside)?;
    }
    Ok(())
}

/// Traces a conflict back to the first point of the present level through which it goes, and puts those literals of lower
/// levels aside that the clause needs which is learnt. The clauses by which it went are among the hints. Literals before `root`
/// are false though nothing was decided. It answers the point's place.
pub fn trace(
    watch: &Watch,
    marks: &mut Marks,
    notes: &mut Notes,
    order: &mut Order,
    at: Bounds,
    root: usize,
    conflict: u64,
    aside: &mut Aside,
    hints: &mut Hints,
    alloc: Global,
) -> Result<usize, AllocError>
    requires level { IsPresent watch.now at.low at.start }
    requires conflict { conflict < length watch.now.clauses }
    requires false_ones { AreFalse watch.now.past.literals (slice_index_or watch.now.clauses conflict []) }
    requires room { watch.now.variables < length marks.old }
    requires aside { aside.old.items ≡ [] }
    requires hints { hints.old.numbers ≡ [] }
    ensures len { length marks.new ≡ length marks.old }
    ensures kept { hints.new.kept ≡ hints.old.kept }
    ensures chain { IfOk result (λ k. hints.old.kept ≡ true → Chain watch.now.clauses (IsLeft watch.now.past.literals at.low k aside.new.items) (IsResolved watch.now.past.literals k aside.new.items) (reverse hints.new.numbers)) }
    ensures point { IfOk result (λ k. IsPoint watch.now.clauses watch.now.past.literals at.low at.start k aside.new.items) }
{
    watch.facts();
    let point = analyse(watch, marks, order, at, conflict, aside, hints)?;
    let places = redundant_places(watch, marks, notes, root, aside.as_slice(), alloc)?;
    take_all_in(watch, marks, order, at, &places, aside)?;
    shorten(watch, marks, at, point, &places, aside, hints, alloc)?;
    Ok(point)
}
