// The objects as they stand on a path: their cells, and their live flags.
ghost use Rattle.std.specs.Prelude.{◌≡◌, slice_set, IfOk};
ghost use Rattle.l2_runs.specs.Numbers.{set_number};
ghost use Rattle.l2_ssa.specs.Walks.{slot_at, cell_at};

use l2_code::Operand;
use l2_runs::{CellValue, index_of};
use std::alloc::{AllocError, Global};
use std::marker::Model;

/// The constant 1, which stands for what is true.
pub const TRUE: Operand = Operand::Constant(CellValue::Number(1));

/// The constant 0, which stands for what is false.
pub const FALSE: Operand = Operand::Constant(CellValue::Number(0));

/// An object's cells, and its live flag.
#[derive(Drop)]
pub struct Slot {
    cells: Vec<Operand>,
    live: Operand,
}

impl Model for Slot {
    ghost use Rattle.l2_ssa.specs.Walks as walks;

    ghost Value = { walks.Slot };

    ghost view = { λ s. record { cells = s.cells.items; live = s.live } };
}

impl Slot {
    /// An object of these cells and this flag.
    pub fn new(cells: Vec<Operand>, live: Operand) -> Slot
        ensures cells { result.cells ≡ cells.items }
        ensures live { result.live ≡ live }
    {
        Slot { cells, live }
    }

    /// What the cells hold, in order.
    pub fn cells(&self) -> &[Operand]
        ensures { result.now ≡ self.now.cells }
    {
        self.cells.as_slice()
    }

    /// The live flag.
    pub fn live(&self) -> Operand
        ensures { result ≡ self.now.live }
    {
        self.live
    }

    fn set_cell(&mut self, offset: u32, value: Operand)
        ensures cells { self.new.cells ≡ slice_set self.old.cells offset value }
        ensures live { self.new.live ≡ self.old.live }
    {
        let at = offset as usize;
        if at < self.cells.len() {
            self.cells[at] = value;
        }
    }

    fn set_live(&mut self, value: Operand)
        ensures cells { self.new.cells ≡ self.old.cells }
        ensures live { self.new.live ≡ value }
    {
        self.live = value;
    }
}

/// What a cell of an object holds, or 0 where there is none.
pub fn cell_at(slots: &[Slot], object: u32, offset: u32) -> Operand
    ensures { result ≡ cell_at slots.now object offset }
{
    match index_of(object) {
        Some(index) if index < slots.len() => match slots[index].cells().get(offset as usize) {
            Some(value) => *value,
            None => FALSE,
        },
        _ => FALSE,
    }
}

/// The live flag of an object, or 0 where there is none.
pub fn live_at(slots: &[Slot], object: u32) -> Operand
    ensures { result ≡ (slot_at slots.now object).live }
{
    match index_of(object) {
        Some(index) if index < slots.len() => slots[index].live(),
        _ => FALSE,
    }
}

/// Gives a cell of an object a value.
pub fn set_cell(slots: &mut Vec<Slot>, object: u32, offset: u32, value: Operand)
    ensures { slots.new.items ≡ set_number slots.old.items object (record (slot_at slots.old.items object) { cells = slice_set (slot_at slots.old.items object).cells offset value }) }
{
    match index_of(object) {
        Some(index) if index < slots.len() => slots[index].set_cell(offset, value),
        _ => {}
    }
}

/// Gives the live flag of an object a value.
pub fn set_live(slots: &mut Vec<Slot>, object: u32, value: Operand)
    ensures { slots.new.items ≡ set_number slots.old.items object (record (slot_at slots.old.items object) { live = value }) }
{
    match index_of(object) {
        Some(index) if index < slots.len() => slots[index].set_live(value),
        _ => {}
    }
}

/// The same objects once more.
pub fn copied(alloc: Global, slots: &[Slot]) -> Result<Vec<Slot>, AllocError>
    ensures { IfOk result (λ v. v.items ≡ slots.now) }
{
    let mut copy = Vec::new(alloc);
    for slot in slots {
        let cells = slot.cells().to_vec(alloc)?;
        copy.push(Slot::new(cells, slot.live()))?;
    }
    Ok(copy)
}
