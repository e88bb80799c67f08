// What a walk over a tree has come to.
ghost use Rattle.std.specs.Prelude.{◌≡◌, ◌++◌, ◌∷◌, [], ◌<◌, ◌≤◌, length, take, drop, slice_set, filter, IfOk};
ghost use Rattle.l2_meaning.specs.Changes.{is_integer, is_variable, sets_of_loop};
ghost use Rattle.l2_mods.specs.Walks.{cells_in, statics_in};

use crate::numbers::rising;
use crate::scope::Scope;
use l2_bits::List;
use l2_meaning::LoopSets;
use l2_program::ObjectInfo;
use l2_runs::{CellType, index_of};
use std::alloc::{AllocError, Global};
use std::marker::Model;

/// The objects in scope, those that were changed so far, and the sets of the loops so far.
#[derive(Drop)]
pub struct Walk {
    scope: Scope,
    changed: Vec<u32>,
    sets: Vec<LoopSets>,
}

impl Model for Walk {
    ghost use Rattle.l2_mods.specs.Walks.{WalkValue};

    ghost Value = { WalkValue };

    ghost view = { λ w. record { scope = w.scope; changed = w.changed.items; sets = w.sets.items } };
}

impl Walk {
    pub fn new(alloc: Global) -> Walk
        ensures { result ≡ record { scope = []; changed = []; sets = [] } }
    {
        Walk {
            scope: Scope::new(alloc),
            changed: Vec::new(alloc),
            sets: Vec::new(alloc),
        }
    }

    pub fn in_scope(&self) -> usize
        ensures { result ≡ length self.now.scope }
    {
        self.scope.len()
    }

    /// How many changes there were.
    pub fn changes(&self) -> usize
        ensures { result ≡ length self.now.changed }
    {
        self.changed.len()
    }

    /// An object is in scope from here on.
    pub fn enter(&mut self, object: u32) -> Result<(), AllocError>
        ensures { IfOk result (λ u. self.new ≡ record self.old { scope = self.old.scope ++ object ∷ [] }) }
    {
        self.scope.enter(object)
    }

    /// The objects behind the first `count` go out of scope.
    pub fn leave(&mut self, count: usize)
        ensures { self.new ≡ record self.old { scope = take count self.old.scope } }
    {
        self.scope.leave(count);
    }

    /// An object is changed.
    pub fn change(&mut self, object: u32) -> Result<(), AllocError>
        ensures { IfOk result (λ u. self.new ≡ record self.old { changed = self.old.changed ++ object ∷ [] }) }
    {
        self.changed.push(object)?;
        Ok(())
    }

    /// What was changed is of no use any more.
    pub fn forget_changes(&mut self)
        ensures { self.new ≡ record self.old { changed = [] } }
    {
        self.changed.clear();
    }

    /// Makes room for the sets of a loop: its index.
    pub fn open(&mut self, alloc: Global, number: u32) -> Result<usize, AllocError>
        ensures index { IfOk result (λ i. i ≡ length self.old.sets) }
        ensures ok { IfOk result (λ i. self.new ≡ record self.old { sets = self.old.sets ++ record { number = number; mods = []; vars = [] } ∷ [] }) }
    {
        let index = self.sets.len();
        let mods = List::new(Vec::new(alloc));
        let vars = List::new(Vec::new(alloc));
        self.sets.push(LoopSets { number, mods, vars })?;
        Ok(index)
    }

    /// The loop with this index changed what was changed from `from` on, and its text names these objects.
    pub fn close(
        &mut self,
        alloc: Global,
        objects: &[ObjectInfo],
        index: usize,
        from: usize,
        number: u32,
        named: &[u32],
    ) -> Result<(), AllocError>
        requires index { index < length self.old.sets }
        requires from { from ≤ length self.old.changed }
        ensures { IfOk result (λ u. self.new ≡ record self.old { sets = slice_set self.old.sets index (sets_of_loop (cells_in objects.now) (statics_in objects.now) self.old.scope number (drop from self.old.changed) named.now) }) }
    {
        let changed = &self.changed[from..];
        let mods = List::new(rising(alloc, changed)?);
        let mut spoken = Vec::new(alloc);
        variables(objects, &self.scope, changed, &mut spoken)?;
        variables(objects, &self.scope, named, &mut spoken)?;
        let vars = List::new(rising(alloc, &spoken)?);
        self.sets[index] = LoopSets { number, mods, vars };
        Ok(())
    }

    pub fn into_sets(self) -> Vec<LoopSets>
        ensures { result.items ≡ self.sets }
    {
        self.sets
    }
}

/// Puts the variables among these objects behind those that are there.
fn variables(
    objects: &[ObjectInfo],
    scope: &Scope,
    among: &[u32],
    out: &mut Vec<u32>,
) -> Result<(), AllocError>
    ensures { IfOk result (λ u. out.new.items ≡ out.old.items ++ filter (is_variable (cells_in objects.now) (statics_in objects.now) scope.now) among.now) }
{
    for n in among {
        if is_variable(objects, scope, *n) {
            out.push(*n)?;
        }
    }
    Ok(())
}

/// Whether an object has one cell, an integer, and is static or in scope.
fn is_variable(objects: &[ObjectInfo], scope: &Scope, n: u32) -> bool
    ensures { result ≡ is_variable (cells_in objects.now) (statics_in objects.now) scope.now n }
{
    match index_of(n) {
        Some(i) => match objects.get(i) {
            Some(o) => is_integer(o.cells.as_slice()) && (o.is_static || scope.has(n)),
            None => false,
        },
        None => false,
    }
}

/// Whether these are the cells of an integer.
fn is_integer(cells: &[CellType]) -> bool
    ensures { result ≡ is_integer cells.now }
{
    match cells {
        [CellType::Integer(_)] => true,
        _ => false,
    }
}
