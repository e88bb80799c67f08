// A walk over code: what it has made so far, and where it stands.
ghost use Rattle.std.specs.Prelude.{◌≡◌, ◌<◌, ◌-◌, IfOk, OnOk, List, [], ◌∷◌, ◌++◌, vec_len};
ghost use Rattle.l2_ssa.specs.Walks as walks;
ghost use Rattle.l2_ssa.specs.Walks.{cell_at, with_cell, with_live, with_path, with_temp};
ghost use Rattle.l2_ssa.specs.Views.{goal_of};
ghost use Rattle.l2_walker.specs.Made.{state_of, standing, with_event, with_entry, with_head, within, frame_of, frames_of, temps_of};

use crate::slots::{FALSE, Slot, cell_at, copied, live_at, set_cell, set_live};
use l2_code::{Code, Operand, Sets};
use l2_ssa::{Event, Goal, Kind, Step};
use std::alloc::{AllocError, Global};
use std::marker::Model;
use std::mem;

/// What a place of code stands in: a block, the last copy of a turn, or an earlier one, which isn't left where the loop started back.
#[derive(Clone, Copy)]
pub enum Frame {
    Block,
    Last,
    Early(Operand),
}

/// A jump that waits for its label: how many blocks lie between, and the path and the objects that it brings.
#[derive(Drop)]
pub struct Entry {
    depth: u32,
    path: Operand,
    slots: Vec<Slot>,
}

impl Model for Entry {
    ghost use Rattle.l2_ssa.specs.Walks as walks;

    ghost Value = { walks.Entry };

    ghost view = { λ e. record { depth = e.depth; path = e.path; slots = e.slots.items } };
}

impl Entry {
    fn new(depth: u32, path: Operand, slots: Vec<Slot>) -> Entry
        ensures { result ≡ record { depth = depth; path = path; slots = slots.items } }
    {
        Entry { depth, path, slots }
    }

    /// How many blocks lie between the jump and its label.
    pub fn depth(&self) -> u32
        ensures { result ≡ self.now.depth }
    {
        self.depth
    }

    /// The path that the jump brings.
    pub fn path(&self) -> Operand
        ensures { result ≡ self.now.path }
    {
        self.path
    }

    /// The objects that the jump brings.
    pub fn slots(&self) -> &[Slot]
        ensures { result.now ≡ self.now.slots }
    {
        self.slots.as_slice()
    }

    /// The same entry, seen from behind the block's end.
    pub fn nearer(self) -> Entry
        ensures { result ≡ record self { depth = self.depth - 1 } }
    {
        let Entry { depth, path, slots } = self;
        Entry::new(depth.saturating_sub(1), path, slots)
    }
}

/// A walk: what it is over, what it has made so far, and where it stands.
#[derive(Drop)]
pub struct Walker<'a> {
    pub alloc: Global,
    pub code: &'a Code,
    pub sets: &'a Sets,
    pub kinds: &'a [Kind],
    pub copies: u32,
    pub ranks: bool,
    pub steps: Vec<Step<'a>>,
    pub events: Vec<Event>,
    pub heads: Vec<Operand>,
    pub entries: Vec<Entry>,
    pub frames: Vec<Frame>,
    pub path: Operand,
    pub temps: Vec<Operand>,
    pub slots: Vec<Slot>,
}

impl<'a> Walker<'a> {
    /// The path on which the walk stands.
    #[tactic(auto, unfolding(crate::specs::Made::state_of))]
    pub fn path(&self) -> Operand
        ensures { result ≡ (state_of self.now).walk.path }
    {
        self.path
    }

    /// The walk goes on on this path.
    #[tactic(auto, unfolding(crate::specs::Made::state_of))]
    pub fn set_path(&mut self, path: Operand)
        ensures { state_of self.new ≡ standing (state_of self.old) (with_path (state_of self.old).walk path) }
    {
        self.path = path;
    }

    /// What a temporary holds, or 0 where it was never given a value.
    #[tactic(auto, unfolding(crate::specs::Made::state_of))]
    fn temp(&self, temp: u32) -> Operand
        ensures { result ≡ (state_of self.now).walk.temps temp }
    {
        match self.temps.get(temp as usize) {
            Some(value) => *value,
            None => FALSE,
        }
    }

    /// The operand as the temporaries stand.
    pub fn now(&self, operand: Operand) -> Operand
        ensures { result ≡ walks.now (state_of self.now).walk operand }
    {
        match operand {
            Operand::Constant(value) => Operand::Constant(value),
            Operand::Temp(temp) => self.temp(temp),
        }
    }

    /// There are so many temporaries.
    #[tactic(auto, using(crate::proofs::Temps::temps_grow), unfolding(crate::specs::Made::state_of))]
    fn reach(&mut self, temp: u32) -> Result<(), AllocError>
        ensures there { OnOk result (temp < vec_len self.new.temps) }
        ensures same { OnOk result (state_of self.new ≡ state_of self.old) }
    {
        while self.temps.len() <= temp as usize {
            self.temps.push(FALSE)?;
        }
        Ok(())
    }

    /// A temporary holds this from here on.
    #[tactic(auto, using(crate::proofs::Temps::temps_set), unfolding(crate::specs::Made::state_of))]
    pub fn set_temp(&mut self, temp: u32, value: Operand) -> Result<(), AllocError>
        ensures { OnOk result (state_of self.new ≡ standing (state_of self.old) (with_temp (state_of self.old).walk temp value)) }
    {
        self.reach(temp)?;
        self.temps[temp as usize] = value;
        Ok(())
    }

    /// What a cell of an object holds, or 0 where there is none.
    #[tactic(auto, unfolding(crate::specs::Made::state_of))]
    pub fn cell(&self, object: u32, offset: u32) -> Operand
        ensures { result ≡ cell_at (state_of self.now).walk.slots object offset }
    {
        cell_at(&self.slots, object, offset)
    }

    /// The live flag of an object, or 0 where there is none.
    #[tactic(auto, unfolding(crate::specs::Made::state_of))]
    pub fn live(&self, object: u32) -> Operand
        ensures { result ≡ (walks.slot_at (state_of self.now).walk.slots object).live }
    {
        live_at(&self.slots, object)
    }

    /// A cell of an object holds this from here on.
    #[tactic(auto, unfolding(crate::specs::Made::state_of))]
    pub fn set_cell(&mut self, object: u32, offset: u32, value: Operand)
        ensures { state_of self.new ≡ standing (state_of self.old) (with_cell (state_of self.old).walk object offset value) }
    {
        set_cell(&mut self.slots, object, offset, value);
    }

    /// The live flag of an object from here on.
    #[tactic(auto, unfolding(crate::specs::Made::state_of))]
    pub fn set_live(&mut self, object: u32, value: Operand)
        ensures { state_of self.new ≡ standing (state_of self.old) (with_live (state_of self.old).walk object value) }
    {
        set_live(&mut self.slots, object, value);
    }

    /// The objects as they stand, once more.
    #[tactic(auto, unfolding(crate::specs::Made::state_of))]
    pub fn slots_now(&self) -> Result<Vec<Slot>, AllocError>
        ensures { IfOk result (λ v. v.items ≡ (state_of self.now).walk.slots) }
    {
        copied(self.alloc, &self.slots)
    }

    /// The objects as they stand, and none are left.
    #[tactic(auto, unfolding(crate::specs::Made::state_of))]
    pub fn take_slots(&mut self) -> Vec<Slot>
        ensures slots { result.items ≡ (state_of self.old).walk.slots }
        ensures rest { state_of self.new ≡ standing (state_of self.old) (record (state_of self.old).walk { slots = [] }) }
    {
        mem::replace(&mut self.slots, Vec::new(self.alloc))
    }

    /// The objects stand so.
    #[tactic(auto, unfolding(crate::specs::Made::state_of))]
    pub fn put_slots(&mut self, slots: Vec<Slot>)
        ensures { state_of self.new ≡ standing (state_of self.old) (record (state_of self.old).walk { slots = slots.items }) }
    {
        self.slots = slots;
    }

    /// One event more, and the literal that says that it occurs.
    #[tactic(auto, unfolding(crate::specs::Made::state_of))]
    pub fn add_event(&mut self, goal: Goal, literal: Operand) -> Result<(), AllocError>
        ensures { OnOk result (state_of self.new ≡ with_event (state_of self.old) (record { goal = goal_of goal; literal = literal })) }
    {
        self.events.push(Event { goal, literal })?;
        Ok(())
    }

    /// One arrival more at a head, on this path.
    #[tactic(auto, unfolding(crate::specs::Made::state_of))]
    pub fn add_head(&mut self, path: Operand) -> Result<(), AllocError>
        ensures { OnOk result (state_of self.new ≡ with_head (state_of self.old) path) }
    {
        self.heads.push(path)?;
        Ok(())
    }

    /// A jump over so many blocks, on this path, brings the objects as they stand.
    #[tactic(auto, unfolding(crate::specs::Made::state_of))]
    pub fn add_entry(&mut self, depth: u32, path: Operand) -> Result<(), AllocError>
        ensures { OnOk result (state_of self.new ≡ with_entry (state_of self.old) (walks.entry depth path (state_of self.old).walk)) }
    {
        let slots = copied(self.alloc, &self.slots)?;
        self.entries.push(Entry::new(depth, path, slots))?;
        Ok(())
    }

    /// An entry that waits for a label farther out.
    #[tactic(auto, unfolding(crate::specs::Made::state_of))]
    pub fn keep(&mut self, entry: Entry) -> Result<(), AllocError>
        ensures { OnOk result (state_of self.new ≡ with_entry (state_of self.old) entry) }
    {
        self.entries.push(entry)?;
        Ok(())
    }

    /// The entries that wait, and none are left.
    #[tactic(auto, unfolding(crate::specs::Made::state_of))]
    pub fn take_entries(&mut self) -> Vec<Entry>
        ensures entries { (rest : List walks.Entry) → (state_of self.old).entries rest ≡ result.items ++ rest }
        ensures state { state_of self.new ≡ record (state_of self.old) { entries = λ rest. rest } }
    {
        mem::replace(&mut self.entries, Vec::new(self.alloc))
    }

    /// These entries wait; those that waited are handed out.
    #[tactic(auto, unfolding(crate::specs::Made::state_of))]
    pub fn put_entries(&mut self, entries: Vec<Entry>) -> Vec<Entry>
        ensures entries { (rest : List walks.Entry) → (state_of self.old).entries rest ≡ result.items ++ rest }
        ensures state { state_of self.new ≡ record (state_of self.old) { entries = λ rest. entries.items ++ rest } }
    {
        mem::replace(&mut self.entries, entries)
    }

    /// What follows stands in this frame.
    #[tactic(auto, using(crate::proofs::Framing::last_frame), unfolding(crate::specs::Made::state_of))]
    pub fn push_frame(&mut self, frame: Frame) -> Result<(), AllocError>
        ensures { OnOk result (state_of self.new ≡ within (state_of self.old) (frame_of frame)) }
    {
        self.frames.push(frame)?;
        Ok(())
    }

    /// Behind the innermost frame.
    #[tactic(auto, using(crate::proofs::Framing::last_frame), unfolding(crate::specs::Made::state_of))]
    pub fn pop_frame(&mut self)
        ensures { (f : walks.Frame) (fs : List walks.Frame) → (state_of self.old).frames ≡ f ∷ fs → state_of self.new ≡ record (state_of self.old) { frames = fs } }
    {
        self.frames.pop();
    }

    /// The frames round the place, the innermost last.
    #[tactic(auto, unfolding(crate::specs::Made::state_of))]
    pub fn frames_now(&self) -> Result<Vec<Frame>, AllocError>
        ensures { IfOk result (λ v. frames_of v.items ≡ (state_of self.now).frames) }
    {
        self.frames.as_slice().to_vec(self.alloc)
    }

    /// Whether rankings are asked for, so that checks are stops.
    #[tactic(auto, unfolding(crate::specs::Made::state_of))]
    pub fn asks_ranks(&self) -> bool
        ensures { result ≡ (state_of self.now).ranks }
    {
        self.ranks
    }

    /// How many copies of each turn are walked.
    #[tactic(auto, unfolding(crate::specs::Made::state_of))]
    pub fn copies(&self) -> u32
        ensures { result ≡ (state_of self.now).copies }
    {
        self.copies
    }

    /// The temporaries as they stand.
    #[tactic(auto, unfolding(crate::specs::Made::state_of))]
    pub fn temps_now(&self) -> Result<Vec<Operand>, AllocError>
        ensures { IfOk result (λ v. temps_of v.items ≡ (state_of self.now).walk.temps) }
    {
        self.temps.as_slice().to_vec(self.alloc)
    }

    /// The temporaries stand so.
    #[tactic(auto, unfolding(crate::specs::Made::state_of))]
    pub fn set_temps(&mut self, temps: Vec<Operand>)
        ensures { state_of self.new ≡ standing (state_of self.old) (record (state_of self.old).walk { temps = temps_of temps.items }) }
    {
        self.temps = temps;
    }
}
