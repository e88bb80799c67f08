// How many cells of a type stand in the objects of each set.
ghost use Rattle.std.specs.Prelude.{◌≡◌, map, IfOk};
ghost use Rattle.l2_code.specs.Values.{same_type};
ghost use Rattle.l2_code.specs.Sizes.{cells_of_type};
ghost use Rattle.l2_code.specs.Sets.{AllRise};
ghost use Rattle.l2_size.specs.Capped.{capped};
ghost use Rattle.l2_size.specs.Tables.{count_of, count_among, object_count, set_count, or_zero};
ghost use Rattle.l2_runs.specs.Numbers.{at_number};

use l2_code::{CodeObject, PointsTo};
use l2_runs::{CellType, Member, index_of};
use std::alloc::{AllocError, Global};

/// For a type of cell, how many there are in the objects of each set.
#[derive(Drop)]
pub struct Table {
    pub ty: CellType,
    pub counts: Vec<u64>,
}

pub fn same_type(a: CellType, b: CellType) -> bool
    ensures { result ≡ same_type a b }
{
    match (a, b) {
        (CellType::Integer(t), CellType::Integer(u)) => t.width == u.width && t.signed == u.signed,
        (CellType::Pointer, CellType::Pointer) => true,
        _ => false,
    }
}

fn cells_of_type(ty: CellType, cells: &[CellType]) -> u64
    ensures { result ≡ cells_of_type ty cells.now }
{
    let mut n = 0;
    for cell in cells {
        if same_type(ty, *cell) {
            n += 1;
        }
    }
    n
}

/// How many cells of a type each object has.
fn object_counts(
    alloc: Global,
    objects: &[CodeObject],
    ty: CellType,
) -> Result<Vec<u64>, AllocError>
    ensures { IfOk result (λ counts. counts.items ≡ map (object_count ty) objects.now) }
{
    let mut counts = Vec::new(alloc);
    for object in objects {
        counts.push(cells_of_type(ty, object.cells.as_slice()))?;
    }
    Ok(counts)
}

/// What stands at this number, or 0.
pub fn number_at(numbers: &[u64], number: u32) -> u64
    ensures { result ≡ or_zero (at_number numbers.now number) }
{
    match index_of(number) {
        Some(i) => match numbers.get(i) {
            Some(n) => *n,
            None => 0,
        },
        None => 0,
    }
}

fn count_of(counts: &[u64], member: Member) -> u64
    ensures { result ≡ count_of counts.now member }
{
    match member {
        Member::Null => 0,
        Member::Invalid => 0,
        Member::Object(o) => number_at(counts, o),
    }
}

/// What the objects of a set count, or the last number where it is more.
fn count_among(counts: &[u64], members: &[Member]) -> u64
    ensures { result ≡ capped (count_among counts.now members.now) }
{
    let mut total: u64 = 0;
    for member in members {
        total = total.saturating_add(count_of(counts, *member));
    }
    total
}

/// The table of a type.
pub fn counted(
    alloc: Global,
    objects: &[CodeObject],
    sets: &[PointsTo],
    ty: CellType,
) -> Result<Table, AllocError>
    requires { AllRise sets.now }
    ensures { IfOk result (λ t. (t.ty ≡ ty) × (t.counts.items ≡ map (set_count objects.now ty) sets.now)) }
{
    let each = object_counts(alloc, objects, ty)?;
    let mut counts = Vec::new(alloc);
    for set in sets {
        counts.push(count_among(&each, set.members.as_slice()))?;
    }
    Ok(Table { ty, counts })
}
