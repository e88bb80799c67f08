// Code with one label at each place.
ghost use Rattle.std.specs.Prelude.{◌≡◌, ◌∷◌, ◌≤◌, IfOk, [], false};
ghost use Rattle.l2_code.specs.Trees.{Do, code_of, tree_of, items_of, join};
ghost use Rattle.l2_labels.specs.Spliced.{singles};
ghost use Rattle.l2_labels.specs.Labels.{blocks_left, redirected, single, merged, one_label};

use crate::copies::{copied, loops, objects, pointed};
use l2_code::{Action, Code, Item};
use std::alloc::{AllocError, Global};

// How many of the innermost blocks that a jump leaves stay.
fn blocks_left(stays: &[bool], depth: u32) -> u32
    ensures is { result ≡ blocks_left stays.now depth }
    ensures at_most { result ≤ depth }
{
    if depth == 0 {
        return 0;
    }
    match stays.split_first() {
        None => depth,
        Some((stays, around)) => {
            let left = blocks_left(around, depth - 1);
            if *stays { left + 1 } else { left }
        }
    }
}

fn instruction(alloc: Global, action: &Action, stays: &[bool]) -> Result<Item, AllocError>
    ensures { IfOk result (λ x. tree_of x ≡ Do (redirected stays.now action.now)) }
{
    let action = match action {
        Action::Unless(test, depth) => Action::Unless(*test, blocks_left(stays, *depth)),
        Action::Goto(depth) => Action::Goto(blocks_left(stays, *depth)),
        other => *other,
    };
    let action = Box::new(alloc, action)?;
    Ok(Item::Do(action))
}

// The blocks round what stands in a block.
fn within(alloc: Global, stays: &[bool], innermost: bool) -> Result<Vec<bool>, AllocError>
    ensures { IfOk result (λ v. v.items ≡ innermost ∷ stays.now) }
{
    let mut around = Vec::new(alloc);
    around.push(innermost)?;
    around.extend_from_slice(stays)?;
    Ok(around)
}

#[cycle(labels)]
#[tactic(auto, using(l2_code::proofs::Items::items))]
fn single(alloc: Global, item: &Item, stays: &[bool]) -> Result<Item, AllocError>
    ensures { IfOk result (λ x. tree_of x ≡ single stays.now (tree_of item.now)) }
{
    match item {
        Item::Do(action) => instruction(alloc, action, stays),
        Item::Block(items) => {
            let around = within(alloc, stays, true)?;
            let all = merged(alloc, items, &around, true)?;
            Ok(Item::Block(all))
        }
        Item::Loop(number, items) => {
            let all = merged(alloc, items, stays, false)?;
            Ok(Item::Loop(*number, all))
        }
    }
}

#[cycle(labels)]
#[tactic(auto, using(l2_code::proofs::Items::items, crate::proofs::Steps::steps))]
fn merged(
    alloc: Global,
    items: &[Item],
    stays: &[bool],
    inside: bool,
) -> Result<Vec<Item>, AllocError>
    ensures { IfOk result (λ v. items_of v.items ≡ merged stays.now inside (items_of items.now)) }
{
    let mut all = Vec::new(alloc);
    let Some((last, before)) = items.split_last() else {
        return Ok(all);
    };
    for item in before {
        all.push(single(alloc, item, stays)?)?;
    }
    match last {
        Item::Block(items) => {
            if inside {
                let around = within(alloc, stays, false)?;
                let mut rest = merged(alloc, items, &around, true)?;
                all.append(&mut rest)?;
            } else {
                all.push(single(alloc, last, stays)?)?;
            }
        }
        Item::Do(_) => all.push(single(alloc, last, stays)?)?,
        Item::Loop(..) => all.push(single(alloc, last, stays)?)?,
    }
    Ok(all)
}

/// The code with one label at each place.
pub fn one_label(alloc: Global, code: &Code) -> Result<Code, AllocError>
    ensures { IfOk result (λ c. code_of c ≡ one_label (code_of code.now)) }
{
    let objects = objects(alloc, code.objects.as_slice())?;
    let pointed = pointed(alloc, code.pointed.as_slice())?;
    let checks = copied(alloc, &code.checks)?;
    let loops = loops(alloc, code.loops.as_slice())?;
    let items = merged(alloc, &code.items, &[], false)?;
    Ok(Code {
        objects,
        pointed,
        checks,
        loops,
        temps: code.temps,
        items,
    })
}
