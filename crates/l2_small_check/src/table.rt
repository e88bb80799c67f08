// The names in scope, and what was found so far.
ghost use Rattle.std.specs.Prelude.{◌≡◌, ◌<◌, ℕ, [], None, Some, length, take, IfOk, IsErrOf, IfErr};
ghost use Rattle.l2_small_check.specs.declared.error.CheckError.TheVariants.{NoMemory};
ghost use Rattle.l2_small_check.specs.Elaboration.{lookup, declare, variable, with_loop, with_check, nothing_found, loop_number, check_number};
ghost use Rattle.l2_small_check.specs.Tables.{place_of, elaborated, Keeps, ArePlaced};
ghost use Rattle.l2_small_check.specs.Founds.{found_of};

use crate::entry::Entry;
use crate::error::CheckError;
use crate::found::Found;
use l2_bits::{List, Ty};
use l2_program::{CheckInfo, LoopInfo, ObjectInfo};
use l2_runs::{CellType, Kind};
use l2_syntax::Place;
use std::alloc::Global;
use std::marker::Model;

/// The names in scope, and the objects, loops and checks of the text so far.
#[derive(Drop)]
pub struct Table {
    entries: Vec<Entry>,
    /// By name: one more than the place at which its entry was put, or 0 where it was never declared.
    places: Vec<usize>,
    objects: Vec<ObjectInfo>,
    loops: Vec<LoopInfo>,
    checks: Vec<CheckInfo>,
}

impl Model for Table {
    ghost use Rattle.std.specs.Prelude.{length, ◌≤◌};
    ghost use Rattle.l2_small_check.specs.Tables.{TableValue, ArePlaced, AreDeclared};

    ghost Value = { TableValue };

    ghost view = { λ t. record { scope = t.entries.items; found = record { objects = t.objects.items; loops = t.loops.items; checks = t.checks.items } } };

    ghost invariant = { λ t. (ArePlaced t.entries.items t.places.items) × (AreDeclared t.objects.items t.places.items) × (length t.objects.items ≤ 65536) };
}

impl Table {
    pub fn new(alloc: Global) -> Table
        ensures { result ≡ record { scope = []; found = nothing_found } }
    {
        Table {
            entries: Vec::new(alloc),
            places: Vec::new(alloc),
            objects: Vec::new(alloc),
            loops: Vec::new(alloc),
            checks: Vec::new(alloc),
        }
    }

    /// The object that a name stands for.
    pub fn lookup(&self, name: u32) -> Option<u32>
        ensures { result ≡ lookup self.now.scope name }
    {
        entry_of(&self.entries, &self.places, name)
    }

    /// How many names are in scope.
    pub fn in_scope(&self) -> usize
        ensures { result ≡ length self.now.scope }
    {
        self.entries.len()
    }

    /// The names behind the first `count` go out of scope.
    pub fn leave(&mut self, count: usize)
        ensures { self.new ≡ record self.old { scope = take count self.old.scope } }
    {
        self.entries.truncate(count);
    }

    /// The number of the object that a name stands for from here on.
    #[tactic(auto, using(crate::proofs::Kept::kept))]
    pub fn declare(&mut self, alloc: Global, name: u32, place: Place) -> Result<u32, CheckError>
        ensures ok { IfOk result (λ n. declare self.old.scope self.old.found name place ≡ Some (elaborated n self.new)) }
        ensures not_small { IsErrOf result CheckError.NotSmall → declare self.old.scope self.old.found name place ≡ None }
        ensures keeps { IfOk result (λ n. Keeps self.old.scope self.new.scope) }
    {
        if place_of(&self.places, name) != 0 || self.objects.len() >= 65536 {
            return Err(CheckError::NotSmall);
        }
        grow(&mut self.places, name)?;
        let variable = variable(alloc, name, place)?;
        self.objects.push(variable)?;
        let object = self.objects.len() as u32;
        self.places[name as usize] = self.entries.len() + 1;
        self.entries.push(Entry { name, object })?;
        Ok(object)
    }

    /// The number of the loop at this place.
    pub fn add_loop(&mut self, alloc: Global, place: Place) -> Result<u32, CheckError>
        ensures number { IfOk result (λ n. n ≡ loop_number self.old.found) }
        ensures ok { IfOk result (λ n. self.new ≡ record self.old { found = with_loop self.old.found place }) }
        ensures err { IfErr result (λ f. f ≡ NoMemory) }
    {
        let no_objects = List::new(Vec::new(alloc));
        self.loops.push(LoopInfo {
            place,
            function: 1,
            mods: no_objects,
            vars: List::new(Vec::new(alloc)),
        })?;
        number(self.loops.len())
    }

    /// The number of the assertion at this place.
    pub fn add_check(&mut self, place: Place) -> Result<u32, CheckError>
        ensures number { IfOk result (λ n. n ≡ check_number self.old.found) }
        ensures ok { IfOk result (λ n. self.new ≡ record self.old { found = with_check self.old.found place }) }
        ensures err { IfErr result (λ f. f ≡ NoMemory) }
    {
        self.checks.push(CheckInfo {
            place,
            kind: Kind::Assertion,
        })?;
        number(self.checks.len())
    }

    /// What was found: the objects, the loops and the checks.
    pub fn into_found(self) -> Found
        ensures { found_of result ≡ self.found }
    {
        let Table {
            objects,
            loops,
            checks,
            ..
        } = self;
        Found {
            objects: List::new(objects),
            loops: List::new(loops),
            checks: List::new(checks),
        }
    }
}

/// A length as a number. One that is too large is want of memory.
pub fn number(length: usize) -> Result<u32, CheckError>
    ensures ok { IfOk result (λ n. n ≡ length) }
    ensures err { IfErr result (λ f. f ≡ NoMemory) }
{
    match u32::try_from(length) {
        Ok(n) => Ok(n),
        Err(_) => Err(CheckError::NoMemory),
    }
}

/// A variable of type `int` in `main`.
fn variable(alloc: Global, name: u32, place: Place) -> Result<ObjectInfo, CheckError>
    ensures ok { IfOk result (λ o. o ≡ variable name place) }
    ensures err { IfErr result (λ f. f ≡ NoMemory) }
{
    let cells = List::new([CellType::Integer(Ty::INT)].to_vec(alloc)?);
    Ok(ObjectInfo {
        name,
        place,
        cells,
        is_static: false,
        function: 1,
    })
}

/// Makes room for a name's place.
#[tactic(auto, using(crate::proofs::Places::places))]
fn grow(places: &mut Vec<usize>, name: u32) -> Result<(), CheckError>
    ensures room { IfOk result (λ u. name < length places.new.items) }
    ensures same { (n : ℕ) → place_of places.new.items n ≡ place_of places.old.items n }
    ensures err { IfErr result (λ f. f ≡ NoMemory) }
{
    for _ in places.len()..name as usize + 1 {
        places.push(0)?;
    }
    Ok(())
}

/// One more than the place of a name's entry, or 0.
fn place_of(places: &[usize], name: u32) -> usize
    ensures { result ≡ place_of places.now name }
{
    let n = name as usize;
    if n < places.len() { places[n] } else { 0 }
}

/// The object that a name stands for.
fn entry_of(entries: &[Entry], places: &[usize], name: u32) -> Option<u32>
    requires { ArePlaced entries.now places.now }
    ensures { result ≡ lookup entries.now name }
{
    let place = place_of(places, name);
    if place == 0 || place > entries.len() {
        return None;
    }
    let entry = entries[place - 1];
    if entry.name == name {
        Some(entry.object)
    } else {
        None
    }
}
