// The loops and the objects of the code over which a walk goes.
ghost use Rattle.std.specs.Prelude.{◌≡◌, Some, IfOk};
ghost use Rattle.l2_runs.specs.Numbers.{at_number};
ghost use Rattle.l2_code.specs.Modes.{loop_mods};
ghost use Rattle.l2_ssa.specs.Walks.{vars_now};
ghost use Rattle.l2_ssa.specs.Law.{loop_vars};
ghost use Rattle.l2_ssa.specs.Views.{kind_of};
ghost use Rattle.l2_walker.specs.Made.{state_of, setting};

use crate::places::object_cells;
use crate::slots::{Slot, cell_at};
use crate::walker::Walker;
use l2_code::{CodeLoop, Operand};
use l2_runs::{CellType, index_of};
use l2_ssa::Kind;
use std::alloc::{AllocError, Global};

fn loop_vars(loops: &[CodeLoop], l: u32) -> &[u32]
    ensures { result.now ≡ loop_vars (at_number loops.now l) }
{
    match index_of(l) {
        Some(index) if index < loops.len() => loops[index].vars.as_slice(),
        _ => &[],
    }
}

fn loop_mods(loops: &[CodeLoop], l: u32) -> &[u32]
    ensures { result.now ≡ loop_mods (at_number loops.now l) }
{
    match index_of(l) {
        Some(index) if index < loops.len() => loops[index].mods.as_slice(),
        _ => &[],
    }
}

/// The values of a loop's variables, where the objects stand so.
pub fn vars_now(alloc: Global, slots: &[Slot], vars: &[u32]) -> Result<Vec<Operand>, AllocError>
    ensures { IfOk result (λ v. v.items ≡ vars_now slots.now vars.now) }
{
    let mut values = Vec::new(alloc);
    for object in vars {
        values.push(cell_at(slots, *object, 0))?;
    }
    Ok(values)
}

impl<'a> Walker<'a> {
    /// The variables of a loop.
    #[tactic(auto, unfolding(crate::specs::Made::state_of))]
    pub fn vars(&self, l: u32) -> &'a [u32]
        ensures { result.now ≡ (setting (state_of self.now)).vars l }
    {
        loop_vars(self.code.loops.as_slice(), l)
    }

    /// The objects that a loop may change.
    #[tactic(auto, unfolding(crate::specs::Made::state_of))]
    pub fn mods(&self, l: u32) -> &'a [u32]
        ensures { result.now ≡ (setting (state_of self.now)).mods l }
    {
        loop_mods(self.code.loops.as_slice(), l)
    }

    /// What a loop is at the point.
    #[tactic(auto, unfolding(crate::specs::Made::state_of))]
    pub fn kind(&self, l: u32) -> Kind
        ensures { kind_of (Some result) ≡ (setting (state_of self.now)).kind l }
    {
        match index_of(l) {
            Some(index) if index < self.kinds.len() => self.kinds[index],
            _ => Kind::Bottom,
        }
    }

    /// The values of a loop's variables, as the walk stands.
    #[tactic(auto, unfolding(crate::specs::Made::state_of))]
    pub fn vars_here(&self, l: u32) -> Result<Vec<Operand>, AllocError>
        ensures { IfOk result (λ v. v.items ≡ vars_now (state_of self.now).walk.slots ((setting (state_of self.now)).vars l)) }
    {
        vars_now(self.alloc, &self.slots, self.vars(l))
    }

    /// The types of the cells of an object.
    #[tactic(auto, unfolding(crate::specs::Made::state_of))]
    pub fn types(&self, object: u32) -> &'a [CellType]
        ensures { result.now ≡ (setting (state_of self.now)).types.objects object }
    {
        object_cells(self.code.objects.as_slice(), object)
    }
}
