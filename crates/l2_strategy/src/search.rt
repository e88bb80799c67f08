ghost use Rattle.std.specs.Prelude.{◌≡◌, ◌<◌, ◌≤◌, ◌-◌, ◌+◌, ◌*◌, ◌^◌, ◌∷◌, ℕ, ℤ, pos, IfOk, List, OnOk, length, map, slice_index_or, sum_by};
ghost use Rattle.l2_templates.specs.Domains.{Rises};
ghost use Rattle.l2_strategy.specs.Asking.{IsAskable, IsFailed};
ghost use Rattle.l2_strategy.specs.Places.{AreFit, IsSearching, IsStrongestOf, at_bottom, forms_of, left, point_of};

use crate::asks::{Asks, BrokenRow};
use crate::places::Place;
use l2_templates::{Form, Point};
use std::alloc::{AllocError, Global};

/// The least index of a bound that no run exceeds, or the number of bounds, where some run exceeds that of this index.
fn least<A: Asks>(
    alloc: Global,
    engine: &mut A,
    point: &Point,
    broken: BrokenRow,
    bounds: &[i128],
    from: usize,
) -> Result<usize, AllocError>
    requires rises { Rises bounds.now }
    requires inside { from < length bounds.now }
    requires askable { IsAskable point.now broken.at broken.row (slice_index_or bounds.now from (pos 0)) }
    requires exceeded { A.exceeds (A.problem engine.old) point.now broken.at broken.row (slice_index_or bounds.now from (pos 0)) }
    ensures same { A.problem engine.new ≡ A.problem engine.old }
    ensures asked { (b : ℕ) → length bounds.now < 2 ^ b → A.asked engine.new ≤ A.asked engine.old + b }
    ensures later { IfOk result (λ j. from < j) }
    ensures within { IfOk result (λ j. j ≤ length bounds.now) }
    ensures exceeded { IfOk result (λ j. A.exceeds (A.problem engine.old) point.now broken.at broken.row (slice_index_or bounds.now (j - 1) (pos 0))) }
{
    let mut low = from + 1;
    let mut high = bounds.len();
    while low < high {
        let middle = low + (high - low) / 2;
        if engine.row(alloc, point, broken, bounds[middle])? {
            low = middle + 1;
        } else {
            high = middle;
        }
    }
    Ok(low)
}

/// An index of a bound behind this one, which some run exceeds: that of the least bound that no run exceeds, or the number of bounds;
/// but the next one, where the row is slow, without a question. It asks of the next bound first, since that is mostly the one. With the
/// question before it takes 1 + b questions for each index that it goes on, at most.
fn rise<A: Asks>(
    alloc: Global,
    engine: &mut A,
    point: &Point,
    broken: BrokenRow,
    bounds: &[i128],
    from: usize,
    slow: bool,
) -> Result<usize, AllocError>
    requires rises { Rises bounds.now }
    requires inside { from < length bounds.now }
    requires askable { IsAskable point.now broken.at broken.row (slice_index_or bounds.now from (pos 0)) }
    requires exceeded { A.exceeds (A.problem engine.old) point.now broken.at broken.row (slice_index_or bounds.now from (pos 0)) }
    ensures same { A.problem engine.new ≡ A.problem engine.old }
    ensures asked { (b : ℕ) → length bounds.now < 2 ^ b → A.asked engine.new + 1 ≤ A.asked engine.old + (length bounds.now - from) * (1 + b) }
    ensures counted { IfOk result (λ j. (b : ℕ) → length bounds.now < 2 ^ b → A.asked engine.new + 1 ≤ A.asked engine.old + (j - from) * (1 + b)) }
    ensures later { IfOk result (λ j. from < j) }
    ensures within { IfOk result (λ j. j ≤ length bounds.now) }
    ensures exceeded { IfOk result (λ j. A.exceeds (A.problem engine.old) point.now broken.at broken.row (slice_index_or bounds.now (j - 1) (pos 0))) }
{
    let next = from + 1;
    if slow {
        return Ok(next);
    }
    if next == bounds.len() {
        return Ok(next);
    }
    if !engine.row(alloc, point, broken, bounds[next])? {
        return Ok(next);
    }
    least(alloc, engine, point, broken, bounds, next)
}

/// The point at which the search stands.
fn point_of(alloc: Global, places: &[Place], bounds: &[i128]) -> Result<Point, AllocError>
    requires { AreFit places.now }
    ensures { IfOk result (λ p. p ≡ point_of bounds.now places.now) }
{
    let mut point = Point::new(alloc);
    for i in 0..places.len() {
        let at = places[i].point(alloc, bounds)?;
        point.push(at)?;
    }
    Ok(point)
}

/// The start of the search.
fn bottom(alloc: Global, forms: &[Vec<Form>]) -> Result<Vec<Place>, AllocError>
    ensures { IfOk result (λ places. places.items ≡ map (λ f. at_bottom f.items) forms.now) }
{
    let mut places = Vec::new(alloc);
    for i in 0..forms.len() {
        let place = Place::new(alloc, forms[i].as_slice())?;
        places.push(place)?;
    }
    Ok(places)
}

/// The search one step on, where some run fails this row of the point at which it stands: a loop leaves Bottom, or a row
/// takes a bound behind its own.
fn raise<A: Asks>(
    alloc: Global,
    engine: &mut A,
    point: &Point,
    places: &mut Vec<Place>,
    bounds: &[i128],
    broken: BrokenRow,
) -> Result<(), AllocError>
    requires rises { Rises bounds.now }
    requires searching { IsSearching (A.infers (A.problem engine.old)) bounds.now places.old.items }
    requires point { point.now ≡ point_of bounds.now places.old.items }
    requires failed { IsFailed (A.exceeds (A.problem engine.old) point.now) point.now broken.at broken.row }
    ensures same { A.problem engine.new ≡ A.problem engine.old }
    ensures asked { (b : ℕ) → length bounds.now < 2 ^ b → A.asked engine.new + 1 ≤ A.asked engine.old + left (length bounds.now) places.old.items * (1 + b) }
    ensures counted { OnOk result ((b : ℕ) → length bounds.now < 2 ^ b → A.asked engine.new + 1 + left (length bounds.now) places.new.items * (1 + b) ≤ A.asked engine.old + left (length bounds.now) places.old.items * (1 + b)) }
    ensures searching { OnOk result (IsSearching (A.infers (A.problem engine.old)) bounds.now places.new.items) }
    ensures forms { OnOk result (forms_of places.new.items ≡ forms_of places.old.items) }
    ensures left { OnOk result (left (length bounds.now) places.new.items < left (length bounds.now) places.old.items) }
{
    let i = broken.at as usize - 1;
    if !places[i].is_reached() {
        places[i].reach();
        return Ok(());
    }
    let r = broken.row as usize - 1;
    let from = places[i].index(r);
    let slow = places[i].is_slow(r);
    let to = rise(alloc, engine, point, broken, bounds, from, slow)?;
    places[i].raise(r, to);
    Ok(())
}

/// The strongest point of these forms and bounds that infers. The bounds rise. With L loops, R rows, H bounds and b binary
/// digits of H it asks at most 1 + (L + R * H) * (1 + b) questions.
pub fn strongest<A: Asks>(
    alloc: Global,
    engine: &mut A,
    forms: &[Vec<Form>],
    bounds: &[i128],
) -> Result<Point, AllocError>
    requires { Rises bounds.now }
    ensures same { A.problem engine.new ≡ A.problem engine.old }
    ensures asked { (b : ℕ) → length bounds.now < 2 ^ b → A.asked engine.new ≤ A.asked engine.old + 1 + (length forms.now + sum_by (λ f. length f.items) forms.now * length bounds.now) * (1 + b) }
    ensures is { IfOk result (λ p. IsStrongestOf (A.infers (A.problem engine.old)) bounds.now (map (λ f. f.items) forms.now) p) }
{
    let mut places = bottom(alloc, forms)?;
    loop {
        let point = point_of(alloc, places.as_slice(), bounds)?;
        match engine.any(alloc, &point)? {
            None => return Ok(point),
            Some(broken) => raise(alloc, engine, &point, &mut places, bounds, broken)?,
        }
    }
}
