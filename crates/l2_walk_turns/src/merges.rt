// At a label: the entries that wait for it, each merged into the walk.
ghost use Rattle.std.specs.Prelude.{◌≡◌, ◌∷◌, [], zero, IfOk, OnOk, drop};
ghost use Rattle.l2_ssa.specs.Walks.{same_operand, merged, merge_step, merge_cells, merged_cells, merge_slots, merge_flags, merge_if};
ghost use Rattle.l2_walker.specs.Made.{state_of, setting, extended, written};
ghost use Rattle.l2_walk_turns.specs.Labels.{cells_merged, flags_merged, zipped, arrived, landed};

use l2_bits::{List, Ty};
use l2_code::Operand;
use l2_runs::CellType;
use l2_ssa::MergeStep;
use l2_walker::{Entry, Slot, Walker, same_operand};
use std::alloc::{AllocError, Global};

// Objects of these cells and flags.
#[tactic(auto, using(crate::proofs::Merging::none_zipped))]
fn zipped(
    alloc: Global,
    cells: Vec<List<Operand>>,
    flags: &[Operand],
) -> Result<Vec<Slot>, AllocError>
    ensures { IfOk result (λ v. v.items ≡ zipped cells.items flags.now) }
{
    let mut slots = Vec::new(alloc);
    let mut index = 0;
    for list in cells {
        if index < flags.len() {
            slots.push(Slot::new(list.into_vec(), flags[index]))?;
            index += 1;
        }
    }
    Ok(slots)
}

// One cell or flag: what both bring alike stays.
fn merged(
    walker: &mut Walker<'_>,
    entry: Operand,
    ty: CellType,
    brought: Operand,
    own: Operand,
) -> Result<Operand, AllocError>
    ensures value { IfOk result (λ a. a ≡ merged (same_operand brought own) (state_of walker.old).names brought) }
    ensures steps { OnOk result (state_of walker.new ≡ extended (state_of walker.old) (merge_step (same_operand brought own) (state_of walker.old).walk.path entry ty brought own)) }
{
    if same_operand(brought, own) {
        return Ok(brought);
    }
    let path = walker.path();
    walker.merge(MergeStep {
        path,
        entry,
        ty,
        brought,
        own,
    })
}

// The cells of an object.
#[tactic(auto, using(l2_walker::proofs::States::extended_twice, crate::proofs::Merging::next_is))]
fn merged_cells(
    walker: &mut Walker<'_>,
    entry: Operand,
    types: &[CellType],
    brought: &[Operand],
    own: &[Operand],
) -> Result<Vec<Operand>, AllocError>
    ensures cells { IfOk result (λ v. v.items ≡ merged_cells (state_of walker.old).names types.now brought.now own.now) }
    ensures steps { OnOk result (state_of walker.new ≡ extended (state_of walker.old) (merge_cells (state_of walker.old).walk.path entry types.now brought.now own.now)) }
{
    let mut cells = Vec::new(walker.alloc);
    let mut i = 0;
    while i < types.len() && i < brought.len() && i < own.len() {
        let value = merged(walker, entry, types[i], brought[i], own[i])?;
        cells.push(value)?;
        i += 1;
    }
    Ok(cells)
}

// The cells of all objects.
#[tactic(auto, using(l2_walker::proofs::States::extended_twice))]
fn all_cells(
    walker: &mut Walker<'_>,
    entry: Operand,
    brought: &[Slot],
    own: &[Slot],
) -> Result<Vec<List<Operand>>, AllocError>
    ensures cells { IfOk result (λ v. v.items ≡ cells_merged (setting (state_of walker.old)) (state_of walker.old).walk.path entry (state_of walker.old).names 1 brought.now own.now) }
    ensures steps { OnOk result (state_of walker.new ≡ extended (state_of walker.old) (merge_slots (setting (state_of walker.old)) (state_of walker.old).walk.path entry 1 brought.now own.now)) }
{
    let mut all = Vec::new(walker.alloc);
    let mut i = 0;
    let mut object: u32 = 1;
    while i < brought.len() && i < own.len() {
        let types = walker.types(object);
        let cells = merged_cells(walker, entry, types, brought[i].cells(), own[i].cells())?;
        all.push(List::new(cells))?;
        if object == u32::MAX {
            return Err(AllocError);
        }
        object += 1;
        i += 1;
    }
    Ok(all)
}

// The flags of all objects.
#[tactic(auto, using(l2_walker::proofs::States::extended_twice, crate::proofs::Merging::next_is))]
fn all_flags(
    walker: &mut Walker<'_>,
    entry: Operand,
    brought: &[Slot],
    own: &[Slot],
) -> Result<Vec<Operand>, AllocError>
    ensures flags { IfOk result (λ v. v.items ≡ flags_merged (state_of walker.old).names brought.now own.now) }
    ensures steps { OnOk result (state_of walker.new ≡ extended (state_of walker.old) (merge_flags (state_of walker.old).walk.path entry brought.now own.now)) }
{
    let mut flags = Vec::new(walker.alloc);
    let mut i = 0;
    while i < brought.len() && i < own.len() {
        let ty = CellType::Integer(Ty::BOOL);
        let flag = merged(walker, entry, ty, brought[i].live(), own[i].live())?;
        flags.push(flag)?;
        i += 1;
    }
    Ok(flags)
}

// An entry of this label.
#[tactic(auto, using(crate::proofs::Merging::slots_are))]
fn merge_entry(walker: &mut Walker<'_>, entry: &Entry) -> Result<(), AllocError>
    ensures { OnOk result (state_of walker.new ≡ written (state_of walker.old) (merge_if (setting (state_of walker.old)) zero entry.now (state_of walker.old).names (state_of walker.old).walk)) }
{
    let path = walker.path();
    let own = walker.take_slots();
    let brought = entry.slots();
    let cells = all_cells(walker, entry.path(), brought, &own)?;
    let flags = all_flags(walker, entry.path(), brought, &own)?;
    walker.put_slots(zipped(walker.alloc, cells, &flags)?);
    let on = walker.either(path, entry.path())?;
    walker.set_path(on);
    Ok(())
}

// An entry that arrives at a label: it is merged, or is one block nearer to its own.
fn arrive(walker: &mut Walker<'_>, entry: Entry) -> Result<(), AllocError>
    ensures { OnOk result (state_of walker.new ≡ arrived (state_of walker.old) entry) }
{
    if entry.depth() == 0 {
        merge_entry(walker, &entry)
    } else {
        walker.keep(entry.nearer())
    }
}

/// The entries of a block at its label, in the order of their arrival.
#[tactic(auto, using(crate::proofs::Landing::landed_more))]
pub fn label(walker: &mut Walker<'_>, entries: Vec<Entry>) -> Result<(), AllocError>
    ensures { OnOk result (state_of walker.new ≡ landed (state_of walker.old) entries.items) }
{
    for entry in entries {
        arrive(walker, entry)?;
    }
    Ok(())
}
