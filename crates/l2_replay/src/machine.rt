// The state of an execution.
ghost use Rattle.std.specs.Prelude.{◌≡◌, pos, true, false, length, slice_index_or, slice_set};
ghost use Rattle.l2_runs.specs.declared.cells.CellValue.TheVariants.{Number};
ghost use Rattle.l2_runs.specs.Store.{cell_at, with_cell, with_live};
ghost use Rattle.l2_runs.specs.Runs.{choose};
ghost use Rattle.l2_runs.specs.Loops.{spend};
ghost use Rattle.l2_replay.specs.Reach.{Does};

use crate::answer::Fault;
use l2_runs::{CellValue, Outcome, index_of};
use std::marker::Model;

/// An object's cells, and whether it is live.
#[derive(Drop)]
pub struct ObjectState {
    cells: Vec<CellValue>,
    live: bool,
}

impl Model for ObjectState {
    ghost use Rattle.l2_runs.specs.Store.{Object};

    ghost Value = { Object };

    ghost view = { λ o. record { cells = o.cells.items; live = o.live } };
}

impl ObjectState {
    pub fn new(cells: Vec<CellValue>, live: bool) -> ObjectState
        ensures { result ≡ record { cells = cells.items; live = live } }
    {
        ObjectState { cells, live }
    }

    fn cell(&self, offset: usize) -> CellValue
        ensures { result ≡ slice_index_or self.now.cells offset (Number (pos 0)) }
    {
        if offset < self.cells.len() {
            self.cells[offset]
        } else {
            CellValue::Number(0)
        }
    }

    fn set_cell(&mut self, offset: usize, value: CellValue)
        ensures { self.new ≡ record self.old { cells = slice_set self.old.cells offset value } }
    {
        if offset < self.cells.len() {
            self.cells[offset] = value;
        }
    }

    fn set_live(&mut self, live: bool)
        ensures { self.new ≡ record self.old { live = live } }
    {
        self.live = live;
    }
}

/// The store, the choices with how many of them were taken, and the turns left.
#[derive(Drop)]
pub struct Machine<'a> {
    store: Vec<ObjectState>,
    choices: &'a [i128],
    used: usize,
    turns: u64,
}

impl<'a> Model for Machine<'a> {
    ghost use Rattle.std.specs.Prelude.{drop, length, ◌≤◌};
    ghost use Rattle.l2_runs.specs.Runs.{State};

    ghost Value = { State };

    ghost view = { λ m. record { store = m.store.items; choices = drop m.used m.choices.now; turns = m.turns; arrivals = 0 } };

    ghost invariant = { λ m. m.used ≤ length m.choices.now };
}

impl<'a> Machine<'a> {
    pub fn new(store: Vec<ObjectState>, choices: &'a [i128], turns: u64) -> Machine<'a>
        ensures { result ≡ record { store = store.items; choices = choices.now; turns = turns; arrivals = 0 } }
    {
        Machine {
            store,
            choices,
            used: 0,
            turns,
        }
    }

    /// The next choice.
    pub fn choose(&mut self) -> Result<i128, Fault>
        ensures does { Does (λ c. c) choose self.old self.new result }
        ensures store { self.new.store ≡ self.old.store }
    {
        if self.used < self.choices.len() {
            let c = self.choices[self.used];
            self.used += 1;
            Ok(c)
        } else {
            Err(Fault::Over(Outcome::OutOfChoices))
        }
    }

    /// An arrival at a loop's head.
    pub fn arrive(&mut self) -> Result<(), Fault>
        ensures does { Does (λ u. tt) spend self.old self.new result }
        ensures store { self.new.store ≡ self.old.store }
    {
        if self.turns == 0 {
            Err(Fault::Over(Outcome::OutOfTurns))
        } else {
            self.turns -= 1;
            Ok(())
        }
    }

    /// How many turns are left.
    pub fn turns(&self) -> u64
        ensures { result ≡ self.now.turns }
    {
        self.turns
    }

    /// How many choices are left.
    pub fn choices_left(&self) -> usize
        ensures { result ≡ length self.now.choices }
    {
        self.choices.len() - self.used
    }

    pub fn read(&self, object: u32, offset: usize) -> CellValue
        ensures { result ≡ cell_at self.now.store (record { object = object; offset = offset }) }
    {
        match index_of(object) {
            Some(i) => {
                if i < self.store.len() {
                    self.store[i].cell(offset)
                } else {
                    CellValue::Number(0)
                }
            }
            None => CellValue::Number(0),
        }
    }

    pub fn write(&mut self, object: u32, offset: usize, value: CellValue)
        ensures { self.new ≡ record self.old { store = with_cell self.old.store (record { object = object; offset = offset }) value } }
    {
        if let Some(i) = index_of(object) {
            if i < self.store.len() {
                self.store[i].set_cell(offset, value);
            }
        }
    }

    /// An object's declaration is reached.
    pub fn enliven(&mut self, object: u32)
        ensures { self.new ≡ record self.old { store = with_live self.old.store object true } }
    {
        self.set_live(object, true);
    }

    /// An object's block is left.
    pub fn bury(&mut self, object: u32)
        ensures { self.new ≡ record self.old { store = with_live self.old.store object false } }
    {
        self.set_live(object, false);
    }

    fn set_live(&mut self, object: u32, live: bool)
        ensures { self.new ≡ record self.old { store = with_live self.old.store object live } }
    {
        if let Some(i) = index_of(object) {
            if i < self.store.len() {
                self.store[i].set_live(live);
            }
        }
    }
}
