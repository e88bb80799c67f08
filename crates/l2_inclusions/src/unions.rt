// The union of many sets.
ghost use Rattle.std.specs.Prelude.{◌≡◌, ◌≤◌, ◌<◌, ◌+◌, ◌*◌, ℕ, Bool, length, IfOk, slice_index_or};
ghost use Rattle.l2_runs.specs.declared.member.Member.{Member};
ghost use Rattle.l2_inclusions.specs.Rows.{members_at, Grows, Brings, AreNumbers, AllBring};

use crate::rows::Rows;
use std::alloc::{AllocError, Global};

// A number of a list, or 0 past its end.
fn at(list: &[u32], i: usize) -> u32
    ensures { result ≡ slice_index_or list.now i 0 }
{
    if i < list.len() { list[i] } else { 0 }
}

// The unions of each two neighbours.
fn halved(alloc: Global, rows: &mut Rows, list: &[u32]) -> Result<Vec<u32>, AllocError>
    requires { AreNumbers rows.old list.now }
    ensures grows { Grows rows.old rows.new }
    ensures numbers { IfOk result (λ v. AreNumbers rows.new v.items) }
    ensures brings { IfOk result (λ v. (m : Member) (b : Bool) → AllBring rows.old list.now m b → AllBring rows.new v.items m b) }
{
    let mut half = Vec::new(alloc);
    for i in 0..list.len() - list.len() / 2 {
        let number = rows.unite(at(list, 2 * i), at(list, 2 * i + 1))?;
        half.push(number)?;
    }
    Ok(half)
}

/// The number of the union of sets.
pub fn union_of(alloc: Global, rows: &mut Rows, list: Vec<u32>) -> Result<u32, AllocError>
    requires { AreNumbers rows.old list.items }
    ensures grows { Grows rows.old rows.new }
    ensures bound { IfOk result (λ k. k ≤ length rows.new.sets) }
    ensures brings { IfOk result (λ k. (m : Member) (b : Bool) → AllBring rows.old list.items m b → Brings (members_at rows.new.sets k) m b) }
{
    let mut list = list;
    for _ in 0..64 {
        if list.len() <= 1 {
            break;
        }
        list = halved(alloc, rows, list.as_slice())?;
    }
    Ok(at(list.as_slice(), 0))
}
