// What code weighs.
ghost use Rattle.std.specs.Prelude.{◌≡◌, IfOk};
ghost use Rattle.l2_code.specs.Trees.{code_of, tree_of, items_of};
ghost use Rattle.l2_code.specs.Sets.{AllRise, family};
ghost use Rattle.l2_code.specs.Sizes.{node_size, nodes_size, size};
ghost use Rattle.l2_size.specs.Capped.{capped};

use crate::scale::Scale;
use l2_code::{Code, Item, Sets};
use std::alloc::{AllocError, Global};

#[cycle(sizes)]
#[tactic(auto, using(l2_code::proofs::Items::items))]
fn node_size(item: &Item, alloc: Global, s: &mut Scale<'_>) -> Result<u64, AllocError>
    ensures same { s.new ≡ s.old }
    ensures is { IfOk result (λ n. n ≡ capped (node_size (code_of s.old.code) (family s.old.sets) s.old.copies s.old.rows (tree_of item.now))) }
{
    match item {
        Item::Do(action) => s.weight(alloc, action),
        Item::Block(items) => nodes_size(items, alloc, s),
        Item::Loop(l, items) => {
            let turn = nodes_size(items, alloc, s)?;
            let end = s.end_weight(*l);
            let head = s.head_weight(*l);
            Ok(
                turn.saturating_add(end)
                    .saturating_mul(s.copies())
                    .saturating_add(head),
            )
        }
    }
}

#[cycle(sizes)]
#[tactic(auto, using(l2_code::proofs::Items::items))]
fn nodes_size(items: &[Item], alloc: Global, s: &mut Scale<'_>) -> Result<u64, AllocError>
    ensures same { s.new ≡ s.old }
    ensures is { IfOk result (λ n. n ≡ capped (nodes_size (code_of s.old.code) (family s.old.sets) s.old.copies s.old.rows (items_of items.now))) }
{
    let mut total: u64 = 0;
    for item in items {
        let n = node_size(item, alloc, s)?;
        total = total.saturating_add(n);
    }
    Ok(total)
}

/// What code with these sets weighs with so many copies of each turn, where each loop has so many rows; or the last number
/// where it weighs more.
pub fn size(
    alloc: Global,
    code: &Code,
    sets: &Sets,
    copies: u32,
    rows: &[u32],
) -> Result<u64, AllocError>
    requires { AllRise sets.now.sets }
    ensures { IfOk result (λ n. n ≡ capped (size (code_of code.now) (family sets.now) copies rows.now)) }
{
    let mut scale = Scale::new(alloc, code, sets, copies, rows);
    nodes_size(&code.items, alloc, &mut scale)
}
