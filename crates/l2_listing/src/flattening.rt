// The flat list of code. It is made from its last instruction to its first, so that the end of each block is known before the
// jumps to it.
ghost use Rattle.std.specs.Prelude.{◌≡◌, ◌+◌, ◌-◌, ◌<◌, ◌≤◌, ◌∷◌, ◌++◌, [], map, drop, slice_index, OnOk, IfOk};
ghost use Rattle.l2_code.specs.Trees.{tree_of, items_of};
ghost use Rattle.l2_code.specs.Sizes.{node_count, instructions};
ghost use Rattle.l2_listing.specs.Flat.{Step, target, flat_of, flat};
ghost use Rattle.l2_listing.specs.Backwards.{instruction_of};

use crate::counting::count;
use l2_code::{Action, Code, Item};
use std::alloc::{AllocError, Global};
use std::marker::Model;

/// An instruction of the flat list.
#[derive(Clone, Copy)]
pub enum Instruction<'a> {
    /// An instruction, and the number of the one to which it jumps, 0 where it is no jump.
    Step(&'a Action, usize),
    /// A loop's head, by the loop's number.
    Head(u32),
    /// The end of a turn, by the loop's number.
    Close(u32),
}

/// How far the list was made: the number of the first instruction that was made, the ends of the blocks round it, and the
/// instructions from the last one on.
#[derive(Drop)]
struct Flattening<'a> {
    at: usize,
    ends: Vec<usize>,
    later: Vec<Instruction<'a>>,
}

impl<'a> Model for Flattening<'a> {
    ghost use Rattle.std.specs.Prelude.{reverse, map};
    ghost use Rattle.l2_listing.specs.Backwards.{Backwards, instruction_of};

    ghost Value = { Backwards };

    ghost view = { λ f. record { at = f.at; ends = reverse f.ends.items; later = map instruction_of (reverse f.later.items) } };
}

impl<'a> Flattening<'a> {
    fn new(alloc: Global, at: usize) -> Flattening<'a>
        ensures { result ≡ record { at = at; ends = []; later = [] } }
    {
        Flattening {
            at,
            ends: Vec::new(alloc),
            later: Vec::new(alloc),
        }
    }

    /// Puts an instruction before the others.
    fn put(&mut self, instruction: Instruction<'a>) -> Result<(), AllocError>
        requires { 0 < self.old.at }
        ensures at { OnOk result (self.new.at + 1 ≡ self.old.at) }
        ensures ends { OnOk result (self.new.ends ≡ self.old.ends) }
        ensures later { OnOk result (self.new.later ≡ instruction_of instruction.entry ∷ self.old.later) }
    {
        self.later.push(instruction)?;
        self.at -= 1;
        Ok(())
    }

    /// Goes into a block from behind.
    fn enter(&mut self) -> Result<(), AllocError>
        ensures { OnOk result (self.new ≡ record self.old { ends = self.old.at ∷ self.old.ends }) }
    {
        self.ends.push(self.at)?;
        Ok(())
    }

    /// Comes out of a block at its front.
    fn leave(&mut self)
        ensures { self.new ≡ record self.old { ends = drop 1 self.old.ends } }
    {
        self.ends.pop();
    }

    /// The end of the block that is so many out.
    fn end(&self, depth: u32) -> usize
        ensures { result ≡ slice_index self.now.ends depth }
    {
        let depth = depth as usize;
        if depth < self.ends.len() {
            self.ends[self.ends.len() - 1 - depth]
        } else {
            0
        }
    }

    /// Where a jump leads, or 0.
    fn target(&self, action: &Action) -> usize
        ensures { result ≡ target self.now.ends action.now }
    {
        match action {
            Action::Compute(_, _) => 0,
            Action::Read(_, _, _) => 0,
            Action::Write(_, _, _) => 0,
            Action::Choice(_, _) => 0,
            Action::Assume(_) => 0,
            Action::Check(_, _) => 0,
            Action::Unless(_, depth) => self.end(*depth),
            Action::Goto(depth) => self.end(*depth),
            Action::Live(_) => 0,
            Action::Dead(_) => 0,
            Action::End => 0,
        }
    }

    /// Puts an instruction of the code before the others.
    fn step(&mut self, action: &'a Action) -> Result<(), AllocError>
        requires { 0 < self.old.at }
        ensures at { OnOk result (self.new.at + 1 ≡ self.old.at) }
        ensures ends { OnOk result (self.new.ends ≡ self.old.ends) }
        ensures later { OnOk result (self.new.later ≡ Step action.now (target self.old.ends action.now) ∷ self.old.later) }
    {
        let to = self.target(action);
        self.put(Instruction::Step(action, to))
    }

    /// The whole list, from the first instruction on.
    fn into_list(self) -> Vec<Instruction<'a>>
        ensures { map instruction_of result.items ≡ self.entry.later }
    {
        let Flattening { later, .. } = self;
        let mut list = later;
        list.reverse();
        list
    }
}

/// Puts an item's instructions before the others.
#[cycle(flattening)]
#[tactic(auto, using(crate::proofs::Items::items))]
fn flatten_item<'a>(f: &mut Flattening<'a>, item: &'a Item) -> Result<(), AllocError>
    requires { node_count (tree_of item.now) ≤ f.old.at }
    ensures at { OnOk result (f.new.at + node_count (tree_of item.now) ≡ f.old.at) }
    ensures ends { OnOk result (f.new.ends ≡ f.old.ends) }
    ensures later { OnOk result (f.new.later ≡ flat_of f.new.at f.old.ends (tree_of item.now) ++ f.old.later) }
{
    match item {
        Item::Do(action) => f.step(action),
        Item::Block(items) => {
            f.enter()?;
            flatten(f, items)?;
            f.leave();
            Ok(())
        }
        Item::Loop(l, items) => {
            f.put(Instruction::Close(*l))?;
            flatten(f, items)?;
            f.put(Instruction::Head(*l))?;
            Ok(())
        }
    }
}

/// Puts the instructions of items before the others.
#[cycle(flattening)]
#[tactic(auto, using(crate::proofs::Items::items))]
fn flatten<'a>(f: &mut Flattening<'a>, items: &'a [Item]) -> Result<(), AllocError>
    requires { instructions (items_of items.now) ≤ f.old.at }
    ensures at { OnOk result (f.new.at + instructions (items_of items.now) ≡ f.old.at) }
    ensures ends { OnOk result (f.new.ends ≡ f.old.ends) }
    ensures later { OnOk result (f.new.later ≡ flat f.new.at f.old.ends (items_of items.now) ++ f.old.later) }
{
    for i in 0..items.len() {
        let left = items.len() - i;
        flatten_item(f, &items[left - 1])?;
    }
    Ok(())
}

/// The flat list of code.
pub fn flat(alloc: Global, code: &Code) -> Result<Vec<Instruction<'_>>, AllocError>
    ensures { IfOk result (λ list. map instruction_of list.items ≡ flat 0 [] (items_of code.now.items.items)) }
{
    let total = count(&code.items);
    if total == usize::MAX {
        return Err(AllocError);
    }
    let mut f = Flattening::new(alloc, total);
    flatten(&mut f, &code.items)?;
    Ok(f.into_list())
}
