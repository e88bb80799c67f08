// Whether rows are closed under inclusions.
ghost use Rattle.std.specs.Prelude.{◌≡◌, ◌≤◌, ◌<◌, ℕ, true, length, IfOk, None};
ghost use Rattle.std.specs.List.{All};
ghost use Rattle.l2_inclusions.specs.Inclusions.{Keeps, IsClosed};
ghost use Rattle.l2_inclusions.specs.Rows.{RowsValue, members_at, set_at};
ghost use Rattle.l2_inclusions.specs.Closing.{IsPart, AreParts, LoadHolds, StoreHolds};

use crate::inclusion::{Inclusion, object_node};
use crate::members::is_within;
use crate::rows::Rows;
use l2_runs::Member;
use std::alloc::{AllocError, Global};

/// Two sets by their numbers, the first within the second.
#[derive(Clone, Copy)]
pub struct Pair {
    pub from: u32,
    pub to: u32,
}

const PAIRS: usize = 65_536;

// Pairs of the empty set alone.
fn no_pairs(alloc: Global, count: usize) -> Result<Vec<Pair>, AllocError>
    ensures { IfOk result (λ v. (r : RowsValue) → AreParts r v.items) }
{
    let mut pairs = Vec::new(alloc);
    for _ in 0..count {
        pairs.push(Pair { from: 0, to: 0 })?;
    }
    Ok(pairs)
}

fn recalls(pairs: &[Pair], place: usize, from: u32, to: u32) -> bool
    ensures { result ≡ true → (r : RowsValue) → AreParts r pairs.now → IsPart r from to }
{
    if place < pairs.len() {
        let pair = pairs[place];
        pair.from == from && pair.to == to
    } else {
        false
    }
}

// Whether one set is within another; pairs that were found are kept.
fn is_part(rows: &Rows, pairs: &mut Vec<Pair>, from: u32, to: u32) -> bool
    requires { AreParts rows.now pairs.old.items }
    ensures part { result ≡ true → IsPart rows.now from to }
    ensures pairs { AreParts rows.now pairs.new.items }
{
    if from == to {
        return true;
    }
    let place = (from ^ to.wrapping_mul(40_503)) as usize % PAIRS;
    if recalls(pairs.as_slice(), place, from, to) {
        return true;
    }
    if !is_within(rows.members(from), rows.members(to)) {
        return false;
    }
    if place < pairs.len() {
        pairs[place] = Pair { from, to };
    }
    true
}

fn load_holds(rows: &Rows, pairs: &mut Vec<Pair>, to: u32, member: Member) -> bool
    requires { AreParts rows.now pairs.old.items }
    ensures holds { result ≡ true → LoadHolds rows.now to member }
    ensures pairs { AreParts rows.now pairs.new.items }
{
    match member {
        Member::Object(object) => is_part(rows, pairs, rows.number(object_node(object)), to),
        _ => true,
    }
}

fn store_holds(rows: &Rows, pairs: &mut Vec<Pair>, from: u32, member: Member) -> bool
    requires { AreParts rows.now pairs.old.items }
    ensures holds { result ≡ true → StoreHolds rows.now from member }
    ensures pairs { AreParts rows.now pairs.new.items }
{
    match member {
        Member::Object(object) => is_part(rows, pairs, from, rows.number(object_node(object))),
        _ => true,
    }
}

// Whether what the objects of a set have is in another.
fn loads_hold(rows: &Rows, pairs: &mut Vec<Pair>, pointers: u32, to: u32) -> bool
    requires { AreParts rows.now pairs.old.items }
    ensures holds { result ≡ true → All (LoadHolds rows.now to) (members_at rows.now.sets pointers) }
    ensures pairs { AreParts rows.now pairs.new.items }
{
    let members = rows.members(pointers);
    for member in members {
        if !load_holds(rows, pairs, to, *member) {
            return false;
        }
    }
    true
}

// Whether what a set has is in those of the objects of another.
fn stores_hold(rows: &Rows, pairs: &mut Vec<Pair>, pointers: u32, from: u32) -> bool
    requires { AreParts rows.now pairs.old.items }
    ensures holds { result ≡ true → All (StoreHolds rows.now from) (members_at rows.now.sets pointers) }
    ensures pairs { AreParts rows.now pairs.new.items }
{
    let members = rows.members(pointers);
    for member in members {
        if !store_holds(rows, pairs, from, *member) {
            return false;
        }
    }
    true
}

fn keeps(rows: &Rows, pairs: &mut Vec<Pair>, inclusion: Inclusion) -> bool
    requires { AreParts rows.now pairs.old.items }
    ensures keeps { result ≡ true → Keeps (set_at rows.now) inclusion }
    ensures pairs { AreParts rows.now pairs.new.items }
{
    match inclusion {
        Inclusion::Has(node, member) => is_within(&[member], rows.members(rows.number(node))),
        Inclusion::Copies(from, to) => is_part(rows, pairs, rows.number(from), rows.number(to)),
        Inclusion::Loads(pointer, to) => loads_hold(
            rows,
            pairs,
            rows.number(pointer),
            rows.number(to),
        ),
        Inclusion::Stores(pointer, from) => stores_hold(
            rows,
            pairs,
            rows.number(pointer),
            rows.number(from),
        ),
    }
}

/// The first inclusion that the rows don't keep, or None where they are closed.
pub fn first_open(
    alloc: Global,
    inclusions: &[Inclusion],
    rows: &Rows,
) -> Result<Option<usize>, AllocError>
    ensures { IfOk result (λ o. o ≡ None → IsClosed (set_at rows.now) inclusions.now) }
{
    let mut pairs = no_pairs(alloc, PAIRS)?;
    for i in 0..inclusions.len() {
        if !keeps(rows, &mut pairs, inclusions[i]) {
            return Ok(Some(i));
        }
    }
    Ok(None)
}
