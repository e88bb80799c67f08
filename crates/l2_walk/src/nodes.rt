// Code, node by node.
ghost use Rattle.std.specs.Prelude.{◌≡◌, ◌∷◌, IfOk, OnOk, List, Some};
ghost use Rattle.l2_code.specs.Trees.{tree_of, items_of};
ghost use Rattle.l2_ssa.specs.Walks as walks;
ghost use Rattle.l2_ssa.specs.Walks.{count_steps, count_name};
ghost use Rattle.l2_ssa.specs.Views.{kind_of};
ghost use Rattle.l2_walker.specs.Made.{state_of, setting, extended, temps_of};
ghost use Rattle.l2_walk.specs.Nodes.{after_node, after_nodes, back_of, entered, entered_turn, left_turn, IsLoop};

use l2_code::{Item, Operand};
use l2_ssa::Kind;
use l2_walk_actions::act;
use l2_walk_turns::{end_turn, label, start_back};
use l2_walker::{FALSE, Frame, Slot, Walker};
use std::alloc::AllocError;

/// A loop whose copies are walked: its number and kind, whether it started back, where checks count round it, and the temporaries
/// at its head.
#[derive(Drop)]
pub struct Turns {
    pub number: u32,
    pub kind: Kind,
    pub back: Operand,
    pub counting: Operand,
    pub temps: Vec<Operand>,
}

/// A copy of a turn that is walked: where its checks count, and the objects at its head.
#[derive(Drop)]
pub struct Turn {
    pub counting: Operand,
    pub old: Vec<Slot>,
}

// Whether a loop starts back.
fn start(walker: &mut Walker<'_>, kind: Kind, number: u32) -> Result<Operand, AllocError>
    ensures back { IfOk result (λ a. a ≡ back_of (kind_of (Some kind)) (state_of walker.old).names) }
    ensures state { OnOk result (state_of walker.new ≡ entered (state_of walker.old) (kind_of (Some kind)) number) }
{
    match kind {
        Kind::Bottom => Ok(FALSE),
        Kind::Plain => Ok(FALSE),
        Kind::Rows(rows) => {
            let path = walker.path();
            let back = walker.choose(path)?;
            start_back(walker, path, back, number, rows)?;
            Ok(back)
        }
    }
}

// The head of a loop.
fn enter(walker: &mut Walker<'_>, number: u32, counting: Operand) -> Result<Turns, AllocError>
    ensures turns { IfOk result (λ t. IsLoop (state_of walker.old) number counting t) }
    ensures state { OnOk result (state_of walker.new ≡ entered (state_of walker.old) ((setting (state_of walker.old)).kind number) number) }
{
    let kind = walker.kind(number);
    let temps = walker.temps_now()?;
    let back = start(walker, kind, number)?;
    Ok(Turns {
        number,
        kind,
        back,
        counting,
        temps,
    })
}

// Where the checks of a copy count: the last copy counts where the loop does, an earlier one where it didn't start back besides.
fn counting(walker: &mut Walker<'_>, turns: &Turns, last: bool) -> Result<Operand, AllocError>
    ensures name { IfOk result (λ a. a ≡ count_name last turns.now.counting (state_of walker.old).names) }
    ensures state { OnOk result (state_of walker.new ≡ extended (state_of walker.old) (count_steps last (state_of walker.old).walk.path turns.now.back turns.now.counting)) }
{
    if last {
        return Ok(turns.counting);
    }
    let path = walker.path();
    walker.apart(path, turns.counting, turns.back)
}

// The head of a copy.
fn enter_turn(walker: &mut Walker<'_>, turns: &Turns, last: bool) -> Result<Turn, AllocError>
    ensures counting { IfOk result (λ t. t.counting ≡ count_name last turns.now.counting (state_of walker.old).names) }
    ensures old { IfOk result (λ t. t.old.items ≡ (state_of walker.old).walk.slots) }
    ensures state { OnOk result (state_of walker.new ≡ entered_turn (state_of walker.old) last turns.now.back turns.now.counting (temps_of turns.now.temps.items)) }
{
    let path = walker.path();
    walker.add_head(path)?;
    let old = walker.slots_now()?;
    let counting = counting(walker, turns, last)?;
    walker.set_temps(turns.temps.as_slice().to_vec(walker.alloc)?);
    let frame = if last {
        Frame::Last
    } else {
        Frame::Early(turns.back)
    };
    walker.push_frame(frame)?;
    Ok(Turn { counting, old })
}

// The end of a copy.
fn leave_turn(walker: &mut Walker<'_>, turns: &Turns, turn: &Turn) -> Result<(), AllocError>
    ensures { OnOk result ((f : walks.Frame) (fs : List walks.Frame) → (state_of walker.old).frames ≡ f ∷ fs
        → state_of walker.new ≡ left_turn (state_of walker.old) fs (kind_of (Some turns.now.kind)) turn.now.counting turns.now.number turn.now.old.items) }
{
    walker.pop_frame();
    end_turn(walker, turns.kind, turn.counting, turns.number, &turn.old)
}

#[cycle(walks)]
#[tactic(auto, using(l2_code::proofs::Items::items))]
pub fn node<'a>(
    walker: &mut Walker<'a>,
    item: &'a Item,
    counting: Operand,
) -> Result<(), AllocError>
    ensures { OnOk result (state_of walker.new ≡ after_node (state_of walker.old) counting (tree_of item.now)) }
{
    match item {
        Item::Do(action) => act(walker, action, counting),
        Item::Block(items) => {
            let outer = walker.take_entries();
            let temps = walker.temps_now()?;
            walker.push_frame(Frame::Block)?;
            nodes(walker, items, counting)?;
            walker.pop_frame();
            let inner = walker.put_entries(outer);
            label(walker, inner)?;
            walker.set_temps(temps);
            Ok(())
        }
        Item::Loop(number, items) => {
            let turns = enter(walker, *number, counting)?;
            let mut left = walker.copies();
            while left > 0 {
                left -= 1;
                let turn = enter_turn(walker, &turns, left == 0)?;
                nodes(walker, items, turn.counting)?;
                leave_turn(walker, &turns, &turn)?;
            }
            walker.set_path(FALSE);
            Ok(())
        }
    }
}

#[cycle(walks)]
#[tactic(auto, using(l2_code::proofs::Items::items, crate::proofs::Coding::nodes_more))]
pub fn nodes<'a>(
    walker: &mut Walker<'a>,
    items: &'a [Item],
    counting: Operand,
) -> Result<(), AllocError>
    ensures { OnOk result (state_of walker.new ≡ after_nodes (state_of walker.old) counting (items_of items.now)) }
{
    for item in items {
        node(walker, item, counting)?;
    }
    Ok(())
}
