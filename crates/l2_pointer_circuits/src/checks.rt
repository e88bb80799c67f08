// Tests on pointers, over the members of their sets.
ghost use Rattle.std.specs.Prelude.{◌≡◌, [], ◌∷◌, IfOk, OnOk, if◌then◌else◌, length};
ghost use Rattle.l2_runs.specs.Numbers.{at_number};
ghost use Rattle.l2_runs.specs.Members.{same_member, has};
ghost use Rattle.l2_gates.specs.Gates.{literal_of, literals_of};
ghost use Rattle.l2_code.specs.Trees.{code_of};
ghost use Rattle.l2_code.specs.Values.{same_type, begins_with};
ghost use Rattle.l2_code.specs.Modes.{types_of, object_cells};
ghost use Rattle.l2_pointer_circuits.specs.Flags.{flags_of};
ghost use Rattle.l2_pointer_circuits.specs.Words as words;
ghost use Rattle.l2_pointer_circuits.specs.Tests.{place, selector_of, isnt_bit, live_from, live_bit, any_from, any, places_from, places, cells_bit, long, within_bit, objects, move_bit, same_bit, is_bit, among_bit};

use crate::words::{half, is_half, moved_offset, place_bit, selector, selector_after};
use l2_circuits::{constant, eq, falsity, lts, ltu, negated, truth};
use l2_cnf::Lit;
use l2_code::{Code, CodeObject};
use l2_gates::Gates;
use l2_runs::{CellType, Member, index_of};
use std::alloc::{AllocError, Global};

/// An object, and the literal that says whether it is live.
#[derive(Clone, Copy, Debug, PartialEq, Eq)]
pub struct Flag {
    pub object: u32,
    pub live: Lit,
}

// ---- what a pointer isn't

fn selector_of(member: Member) -> u64
    ensures { result ≡ selector_of member }
{
    match member {
        Member::Null => 0,
        Member::Invalid => 1,
        Member::Object(object) => selector_after(object),
    }
}

fn is_same(a: Member, b: Member) -> bool
    ensures { result ≡ same_member a b }
{
    match (a, b) {
        (Member::Null, Member::Null) => true,
        (Member::Invalid, Member::Invalid) => true,
        (Member::Object(x), Member::Object(y)) => x == y,
        _ => false,
    }
}

fn has(set: &[Member], member: Member) -> bool
    ensures { result ≡ has set.now member }
{
    for one in set {
        if is_same(*one, member) {
            return true;
        }
    }
    false
}

/// Whether a pointer isn't this, which it can't be where its set lacks it.
pub fn isnt_bit(
    alloc: Global,
    gates: &mut Gates,
    member: Member,
    set: &[Member],
    a: &[Lit],
) -> Result<Lit, AllocError>
    ensures is { IfOk result (λ l. literal_of l ≡ (isnt_bit member set.now (literals_of a.now) gates.old).bit) }
    ensures made { OnOk result (gates.new ≡ (isnt_bit member set.now (literals_of a.now) gates.old).made) }
{
    if has(set, member) {
        let same = is_half(alloc, gates, selector_of(member), selector(a))?;
        Ok(negated(same))
    } else {
        Ok(truth())
    }
}

// ---- live flags

/// Whether no flag of the pointer's object is false.
pub fn live_bit(
    alloc: Global,
    gates: &mut Gates,
    flags: &[Flag],
    a: &[Lit],
) -> Result<Lit, AllocError>
    ensures is { IfOk result (λ l. literal_of l ≡ (live_bit (flags_of flags.now) (literals_of a.now) gates.old).bit) }
    ensures made { OnOk result (gates.new ≡ (live_bit (flags_of flags.now) (literals_of a.now) gates.old).made) }
{
    let mut live = truth();
    for flag in flags {
        let same = is_half(alloc, gates, selector_after(flag.object), selector(a))?;
        let here = gates.or(negated(same), flag.live)?;
        live = gates.and(live, here)?;
    }
    Ok(live)
}

// ---- cells

fn is_type(a: CellType, b: CellType) -> bool
    ensures { result ≡ same_type a b }
{
    match (a, b) {
        (CellType::Integer(t), CellType::Integer(u)) => t.width == u.width && t.signed == u.signed,
        (CellType::Pointer, CellType::Pointer) => true,
        _ => false,
    }
}

/// Whether a list of types begins with these.
fn begins_with(types: &[CellType], cells: &[CellType]) -> bool
    ensures { result ≡ begins_with types.now cells.now }
{
    if types.len() > cells.len() {
        return false;
    }
    for i in 0..types.len() {
        if !is_type(types[i], cells[i]) {
            return false;
        }
    }
    true
}

// The types of an object's cells.
fn object_cells(objects: &[CodeObject], object: u32) -> &[CellType]
    ensures { result.now ≡ object_cells (at_number objects.now object) }
{
    match index_of(object) {
        Some(index) if index < objects.len() => objects[index].cells.as_slice(),
        _ => &[],
    }
}

/// One place more, where cells of these types stand at it.
fn or_place(
    alloc: Global,
    gates: &mut Gates,
    object: u32,
    at: u64,
    stands: bool,
    a: &[Lit],
    or: Lit,
) -> Result<Lit, AllocError>
    ensures is { IfOk result (λ l. literal_of l ≡ (any_from (λ p. words.at_bit p (literals_of a.now)) (if stands then place object at ∷ [] else []) (literal_of or) gates.old).bit) }
    ensures made { OnOk result (gates.new ≡ (any_from (λ p. words.at_bit p (literals_of a.now)) (if stands then place object at ∷ [] else []) (literal_of or) gates.old).made) }
{
    if stands {
        let here = place_bit(alloc, gates, object, at, a)?;
        gates.or(or, here)
    } else {
        Ok(or)
    }
}

/// The places in one object.
fn or_places(
    alloc: Global,
    gates: &mut Gates,
    object: u32,
    cells: &[CellType],
    types: &[CellType],
    a: &[Lit],
    or: Lit,
) -> Result<Lit, AllocError>
    ensures is { IfOk result (λ l. literal_of l ≡ (any_from (λ p. words.at_bit p (literals_of a.now)) (places_from types.now object 0 cells.now) (literal_of or) gates.old).bit) }
    ensures made { OnOk result (gates.new ≡ (any_from (λ p. words.at_bit p (literals_of a.now)) (places_from types.now object 0 cells.now) (literal_of or) gates.old).made) }
{
    let mut any = or;
    for i in 0..cells.len() {
        let stands = begins_with(types, &cells[i..]);
        any = or_place(alloc, gates, object, i as u64, stands, a, any)?;
    }
    Ok(any)
}

/// The places in the object that a member is.
fn or_member_places(
    alloc: Global,
    gates: &mut Gates,
    code: &Code,
    member: Member,
    types: &[CellType],
    a: &[Lit],
    or: Lit,
) -> Result<Lit, AllocError>
    ensures is { IfOk result (λ l. literal_of l ≡ (any_from (λ p. words.at_bit p (literals_of a.now)) (places (types_of (code_of code.now)).objects types.now (objects (member ∷ []))) (literal_of or) gates.old).bit) }
    ensures made { OnOk result (gates.new ≡ (any_from (λ p. words.at_bit p (literals_of a.now)) (places (types_of (code_of code.now)).objects types.now (objects (member ∷ []))) (literal_of or) gates.old).made) }
{
    match member {
        Member::Null => Ok(or),
        Member::Invalid => Ok(or),
        Member::Object(object) => or_places(
            alloc,
            gates,
            object,
            object_cells(code.objects.as_slice(), object),
            types,
            a,
            or,
        ),
    }
}

/// Whether cells of these types stand at a pointer.
pub fn cells_bit(
    alloc: Global,
    gates: &mut Gates,
    code: &Code,
    types: &[CellType],
    set: &[Member],
    a: &[Lit],
) -> Result<Lit, AllocError>
    ensures is { IfOk result (λ l. literal_of l ≡ (cells_bit (types_of (code_of code.now)).objects types.now set.now (literals_of a.now) gates.old).bit) }
    ensures made { OnOk result (gates.new ≡ (cells_bit (types_of (code_of code.now)).objects types.now set.now (literals_of a.now) gates.old).made) }
{
    let mut any = falsity();
    for member in set {
        any = or_member_places(alloc, gates, code, *member, types, a, any)?;
    }
    Ok(any)
}

// ---- moves

/// A constant offset in 96 bits.
#[tactic(auto, unfolding(crate::specs::Tests::long))]
fn long(alloc: Global, number: u64) -> Result<Vec<Lit>, AllocError>
    ensures { IfOk result (λ w. literals_of w.items ≡ long number) }
{
    constant(alloc, 96, i128::from(number))
}

/// Whether a pointer is this object's, and an offset lies in the object or one past its end.
#[tactic(auto, unfolding(crate::specs::Tests::within_bit))]
fn within_bit(
    alloc: Global,
    gates: &mut Gates,
    code: &Code,
    object: u32,
    a: &[Lit],
    x: &[Lit],
) -> Result<Lit, AllocError>
    ensures is { IfOk result (λ l. literal_of l ≡ (within_bit (types_of (code_of code.now)).objects (literals_of a.now) (literals_of x.now) object gates.old).bit) }
    ensures made { OnOk result (gates.new ≡ (within_bit (types_of (code_of code.now)).objects (literals_of a.now) (literals_of x.now) object gates.old).made) }
{
    let same = is_half(alloc, gates, selector_after(object), selector(a))?;
    let none = long(alloc, 0)?;
    let before = lts(alloc, gates, x, &none)?;
    let length = object_cells(code.objects.as_slice(), object).len();
    let end = long(alloc, length as u64)?;
    let behind = lts(alloc, gates, &end, x)?;
    let inside = gates.and(negated(before), negated(behind))?;
    gates.and(same, inside)
}

/// The object that a member is.
fn or_member_within(
    alloc: Global,
    gates: &mut Gates,
    code: &Code,
    member: Member,
    a: &[Lit],
    x: &[Lit],
    or: Lit,
) -> Result<Lit, AllocError>
    ensures is { IfOk result (λ l. literal_of l ≡ (any_from (within_bit (types_of (code_of code.now)).objects (literals_of a.now) (literals_of x.now)) (objects (member ∷ [])) (literal_of or) gates.old).bit) }
    ensures made { OnOk result (gates.new ≡ (any_from (within_bit (types_of (code_of code.now)).objects (literals_of a.now) (literals_of x.now)) (objects (member ∷ [])) (literal_of or) gates.old).made) }
{
    match member {
        Member::Null => Ok(or),
        Member::Invalid => Ok(or),
        Member::Object(object) => {
            let here = within_bit(alloc, gates, code, object, a, x)?;
            gates.or(or, here)
        }
    }
}

fn or_within(
    alloc: Global,
    gates: &mut Gates,
    code: &Code,
    set: &[Member],
    a: &[Lit],
    x: &[Lit],
) -> Result<Lit, AllocError>
    ensures is { IfOk result (λ l. literal_of l ≡ (any (within_bit (types_of (code_of code.now)).objects (literals_of a.now) (literals_of x.now)) (objects set.now) gates.old).bit) }
    ensures made { OnOk result (gates.new ≡ (any (within_bit (types_of (code_of code.now)).objects (literals_of a.now) (literals_of x.now)) (objects set.now) gates.old).made) }
{
    let mut any = falsity();
    for member in set {
        any = or_member_within(alloc, gates, code, *member, a, x, any)?;
    }
    Ok(any)
}

/// Whether a pointer may be moved by a number of 96 bits times so many cells.
pub fn move_bit(
    alloc: Global,
    gates: &mut Gates,
    code: &Code,
    by: i64,
    set: &[Member],
    a: &[Lit],
    b: &[Lit],
) -> Result<Lit, AllocError>
    ensures is { IfOk result (λ l. literal_of l ≡ (move_bit (types_of (code_of code.now)).objects by set.now (literals_of a.now) (literals_of b.now) gates.old).bit) }
    ensures made { OnOk result (gates.new ≡ (move_bit (types_of (code_of code.now)).objects by set.now (literals_of a.now) (literals_of b.now) gates.old).made) }
{
    let x = moved_offset(alloc, gates, by, a, b)?;
    or_within(alloc, gates, code, set, a, &x)
}

// ---- one object

/// Whether two pointers are of one object.
pub fn same_bit(alloc: Global, gates: &mut Gates, a: &[Lit], b: &[Lit]) -> Result<Lit, AllocError>
    ensures is { IfOk result (λ l. literal_of l ≡ (same_bit (literals_of a.now) (literals_of b.now) gates.old).bit) }
    ensures made { OnOk result (gates.new ≡ (same_bit (literals_of a.now) (literals_of b.now) gates.old).made) }
{
    let same = eq(alloc, gates, selector(a), selector(b))?;
    let null = is_half(alloc, gates, 0, selector(a))?;
    let invalid = is_half(alloc, gates, 1, selector(a))?;
    let object = gates.and(negated(null), negated(invalid))?;
    gates.and(same, object)
}

// ---- a selector and an offset of any pointer

/// Whether they are those of this member.
fn is_bit(
    alloc: Global,
    gates: &mut Gates,
    code: &Code,
    member: Member,
    s: &[Lit],
    f: &[Lit],
) -> Result<Lit, AllocError>
    ensures is { IfOk result (λ l. literal_of l ≡ (is_bit (types_of (code_of code.now)).objects (literals_of s.now) (literals_of f.now) member gates.old).bit) }
    ensures made { OnOk result (gates.new ≡ (is_bit (types_of (code_of code.now)).objects (literals_of s.now) (literals_of f.now) member gates.old).made) }
{
    match member {
        Member::Null => {
            let e = is_half(alloc, gates, 0, s)?;
            let t = is_half(alloc, gates, 0, f)?;
            gates.and(e, t)
        }
        Member::Invalid => {
            let e = is_half(alloc, gates, 1, s)?;
            let t = is_half(alloc, gates, 0, f)?;
            gates.and(e, t)
        }
        Member::Object(object) => {
            let e = is_half(alloc, gates, selector_after(object), s)?;
            let length = object_cells(code.objects.as_slice(), object).len();
            let end = half(alloc, length as u64)?;
            let t = ltu(alloc, gates, &end, f)?;
            gates.and(e, negated(t))
        }
    }
}

/// Whether they are those of a pointer of the set.
pub fn among_bit(
    alloc: Global,
    gates: &mut Gates,
    code: &Code,
    set: &[Member],
    s: &[Lit],
    f: &[Lit],
) -> Result<Lit, AllocError>
    ensures is { IfOk result (λ l. literal_of l ≡ (among_bit (types_of (code_of code.now)).objects set.now (literals_of s.now) (literals_of f.now) gates.old).bit) }
    ensures made { OnOk result (gates.new ≡ (among_bit (types_of (code_of code.now)).objects set.now (literals_of s.now) (literals_of f.now) gates.old).made) }
{
    let mut any = falsity();
    for member in set {
        let here = is_bit(alloc, gates, code, *member, s, f)?;
        any = gates.or(any, here)?;
    }
    Ok(any)
}
