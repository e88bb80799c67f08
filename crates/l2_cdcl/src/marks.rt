ghost use Rattle.std.specs.Prelude.{◌≡◌, ◌≤◌, ◌<◌, ◌^◌, ◌+◌, ℕ, Bool, true, false, List, length, IfOk, slice_set, slice_index_or};
ghost use Rattle.l2_cdcl.specs.Analysis.{IsMarked};

use std::alloc::{AllocError, Global};
use std::marker::Model;

/// Marks of variables. A variable is marked by the present stamp, so that all marks are taken off at once.
#[derive(Drop)]
pub struct Marks {
    stamps: Vec<u64>,
    stamp: u64,
}

impl Model for Marks {
    ghost use Rattle.std.specs.Prelude.{Bool, List, ℕ, map, eqb, ◌≤◌, slice_index_or};

    ghost Value = { List Bool };

    ghost view = { λ a. map (λ s. eqb s a.stamp) a.stamps.items };

    ghost invariant = { λ a. (1 ≤ a.stamp) × ((v : ℕ) → slice_index_or a.stamps.items v 0 ≤ a.stamp) };
}

impl Marks {
    /// Marks of the variables up to this one.
    pub fn new(alloc: Global, variables: u64) -> Result<Marks, AllocError>
        requires { variables < 2 ^ 62 }
        ensures { IfOk result (λ m. length m ≡ variables + 1) }
    {
        let stamps = vec![in alloc; 0; variables as usize + 1]?;
        Ok(Marks { stamps, stamp: 1 })
    }

    pub fn is_marked(&self, var: u64) -> bool
        requires { var < length self.now }
        ensures { result ≡ slice_index_or self.now var false }
    {
        self.stamps[var as usize] == self.stamp
    }

    pub fn mark(&mut self, var: u64)
        requires { var < length self.old }
        ensures { self.new ≡ slice_set self.old var true }
    {
        self.stamps[var as usize] = self.stamp;
    }

    /// Takes one mark off.
    pub fn unmark(&mut self, var: u64)
        requires { var < length self.old }
        ensures { self.new ≡ slice_set self.old var false }
    {
        self.stamps[var as usize] = 0;
    }

    /// Takes all marks off.
    pub fn clear(&mut self)
        ensures none { (v : ℕ) → ¬ IsMarked self.new v }
        ensures len { length self.new ≡ length self.old }
    {
        self.stamp = next_stamp(&mut self.stamps, self.stamp);
    }

    pub fn len(&self) -> usize
        ensures { result ≡ length self.now }
    {
        self.stamps.len()
    }
}

// A stamp that is above all others.
fn next_stamp(stamps: &mut Vec<u64>, stamp: u64) -> u64
    requires { (v : ℕ) → slice_index_or stamps.old.items v 0 ≤ stamp }
    ensures above { (v : ℕ) → slice_index_or stamps.new.items v 0 < result }
    ensures some { 1 ≤ result }
    ensures len { length stamps.new.items ≡ length stamps.old.items }
{
    if stamp < u64::MAX {
        return stamp + 1;
    }
    wipe(stamps);
    1
}

fn wipe(stamps: &mut Vec<u64>)
    ensures none { (v : ℕ) → slice_index_or stamps.new.items v 0 ≡ 0 }
    ensures len { length stamps.new.items ≡ length stamps.old.items }
{
    for i in 0..stamps.len() {
        stamps[i] = 0;
    }
}
