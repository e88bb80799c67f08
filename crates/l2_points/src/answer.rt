// The least sets of a code, as they are handed out.
ghost use Rattle.std.specs.Prelude.{◌≡◌, ◌≤◌, ◌+◌, ◌*◌, ℕ, true, List, length, IfOk};
ghost use Rattle.std.specs.List.{All};
ghost use Rattle.l2_runs.specs.Numbers.{at_number};
ghost use Rattle.l2_code.specs.declared.sets.PointsTo.{PointsTo};
ghost use Rattle.l2_code.specs.Trees.{code_of};
ghost use Rattle.l2_code.specs.Sets.{Family, IsClosed, IsResolved, IsInside, AreSetsOf, HasCell, family};
ghost use Rattle.l2_points.specs.Entries.{NoneBeyond, AreThose, IsThere};

use crate::gather::gather_all;
use l2_bits::List;
use l2_code::{Code, CodeObject, PointsTo, Sets};
use l2_inclusions::{Rows, least};
use l2_runs::{Member, index_of};
use std::alloc::{AllocError, Global};

// The numbers of the sets of so many objects, or temporaries.
fn entries(alloc: Global, rows: &Rows, rest: usize, count: u32) -> Result<Vec<u32>, AllocError>
    requires { rest ≤ 1 }
    ensures count { IfOk result (λ v. length v.items ≡ count) }
    ensures those { IfOk result (λ v. AreThose rows.now rest v.items) }
{
    let mut entries = Vec::new(alloc);
    let mut node = rest;
    for _ in 0..count {
        node += 3;
        entries.push(rows.number(node))?;
    }
    Ok(entries)
}

// Whether no other object, or temporary, has a member.
fn none_beyond(rows: &Rows, rest: usize, count: u32) -> bool
    requires { rest ≤ 1 }
    ensures { result ≡ true → NoneBeyond rows.now rest count }
{
    for n in 0..rows.nodes() / 3 + 1 {
        if (n == 0 || n > count as usize) && rows.number(3 * n + rest) != 0 {
            return false;
        }
    }
    true
}

fn is_there(objects: &[CodeObject], member: Member) -> bool
    ensures { result ≡ true → IsThere objects.now member }
{
    match member {
        Member::Null => true,
        Member::Invalid => true,
        Member::Object(object) => match index_of(object) {
            Some(index) if index < objects.len() => !objects[index].cells.as_slice().is_empty(),
            _ => false,
        },
    }
}

fn are_there(objects: &[CodeObject], members: &[Member]) -> bool
    ensures { result ≡ true → All (IsThere objects.now) members.now }
{
    for member in members {
        if !is_there(objects, *member) {
            return false;
        }
    }
    true
}

// Whether each object that a set names exists and has a cell.
fn are_over(objects: &[CodeObject], sets: &[PointsTo]) -> bool
    ensures { result ≡ true → All (λ s. All (IsThere objects.now) s.members) sets.now }
{
    for set in sets {
        if !are_there(objects, set.members.as_slice()) {
            return false;
        }
    }
    true
}

/// What each object's pointer cells and each temporary of a code may be: the least sets that are closed over it. A code that
/// names an object, a cell or a temporary that it doesn't have is answered by want of memory; a well-formed one names none.
pub fn points(alloc: Global, code: &Code) -> Result<Sets, AllocError>
    ensures sets { IfOk result (λ s. AreSetsOf (code_of code.now) s) }
    ensures resolved { IfOk result (λ s. IsResolved (code_of code.now) (family s)) }
    ensures least { IfOk result (λ s. (f : Family) → IsClosed (code_of code.now) f → IsInside (family s) f) }
{
    let inclusions = gather_all(alloc, code)?;
    let rows = least(alloc, inclusions.as_slice())?;
    rows.facts();
    let count = code.objects.as_slice().len();
    if count > u32::MAX as usize {
        return Err(AllocError);
    }
    let count = count as u32;
    if !none_beyond(&rows, 0, count) || !none_beyond(&rows, 1, code.temps) {
        return Err(AllocError);
    }
    let objects = entries(alloc, &rows, 0, count)?;
    let temps = entries(alloc, &rows, 1, code.temps)?;
    let sets = rows.into_sets();
    if !are_over(code.objects.as_slice(), sets.as_slice()) {
        return Err(AllocError);
    }
    Ok(Sets {
        sets: List::new(sets),
        objects: List::new(objects),
        temps: List::new(temps),
    })
}
