// How many instructions code has.
ghost use Rattle.std.specs.Prelude.{◌≡◌, min};
ghost use Rattle.l2_code.specs.Trees.{tree_of, items_of};
ghost use Rattle.l2_code.specs.Sizes.{node_count, instructions};

use l2_code::Item;

#[cycle(counts)]
#[tactic(auto, using(crate::proofs::Items::items))]
fn count_of(item: &Item) -> usize
    ensures { result ≡ min (node_count (tree_of item.now)) usize.MAX }
{
    match item {
        Item::Do(_) => 1,
        Item::Block(items) => count(items),
        Item::Loop(_, items) => count(items).saturating_add(2),
    }
}

/// How many instructions these items have, or the greatest number where they have more.
#[cycle(counts)]
#[tactic(auto, using(crate::proofs::Items::items))]
pub fn count(items: &[Item]) -> usize
    ensures { result ≡ min (instructions (items_of items.now)) usize.MAX }
{
    let mut total: usize = 0;
    for item in items {
        total = total.saturating_add(count_of(item));
    }
    total
}
