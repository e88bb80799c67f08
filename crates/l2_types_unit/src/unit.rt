// Texts.
ghost use Rattle.std.specs.Prelude.{◌≡◌, ◌≢◌, Option, None, IfOk, IfErr};
ghost use Rattle.l2_syntax.specs.declared.refusal.TextFault.TheVariants.{NoMemory};
ghost use Rattle.l2_tree.specs.Units.{unit_tree};
ghost use Rattle.l2_types.specs.States.{saw};
ghost use Rattle.l2_types_unit.specs.Faults.{least, refusal_of};
ghost use Rattle.l2_types_unit.specs.Typed.{function_tree, typed_tree_of};
ghost use Rattle.l2_types_unit.specs.Units.{begin, looked, found, faults_of, checks_of, places_of, typed_form, typed_unit};

use crate::checks::{checks_of, places_of};
use crate::defined::{functions, variables};
use crate::external::{TypedFunction, externals};
use crate::faults::{faults, least};
use crate::words::{main_number, with_known};
use l2_bits::List;
use l2_program::{CheckInfo, StaticValue};
use l2_syntax::{Place, Refusal, TextFault};
use l2_tree::Unit;
use l2_types::{CheckError, LoopEntry, ObjectEntry, Table};
use std::alloc::Global;

/// A text with its types. Objects, loops and checks are numbered from 1 in the order of these lists.
#[derive(Drop)]
pub struct TypedUnit {
    pub functions: List<TypedFunction>,
    pub objects: List<ObjectEntry>,
    pub loops: List<LoopEntry>,
    /// The checks of the code that `main` reaches.
    pub checks: List<CheckInfo>,
    /// What static objects hold at the start, where that isn't said to be 0.
    pub statics: List<StaticValue>,
}

/// A table at the begin of a text.
fn begin(
    alloc: Global,
    unit: &Unit,
    overflow: bool,
    checks: Vec<CheckInfo>,
    places: Vec<Place>,
) -> Result<Table, CheckError>
    ensures ok { IfOk result (λ t. t ≡ begin (unit_tree unit.now) overflow checks.items places.items) }
{
    let names = unit.names.as_slice();
    let externals = unit.externals.as_slice();
    let defined = functions(alloc, externals)?;
    let named = variables(alloc, externals)?;
    let main = main_number(names)?;
    let mut table = Table::new(alloc, overflow, checks, places, defined, named, main);
    with_known(&mut table, names)?;
    Ok(table)
}

/// The typed form of a text, or its least fault by place and then by rule. More names, objects, loops, checks or functions
/// than a `u32` counts are want of memory.
pub fn check(alloc: Global, unit: &Unit, overflow: bool) -> Result<TypedUnit, TextFault>
    ensures ok { IfOk result (λ u. typed_tree_of u ≡ typed_unit (unit_tree unit.now) overflow) }
    ensures fine { IfOk result (λ u. least (faults_of (unit_tree unit.now) overflow) ≡ None) }
    ensures err { IfErr result (λ f. f ≢ NoMemory → least (faults_of (unit_tree unit.now) overflow) ≡ refusal_of f) }
{
    match first_look(alloc, unit, overflow) {
        Err(_) => Err(TextFault::NoMemory),
        Ok(first) => match least(first.faults.as_slice()) {
            Some(fault) => Err(TextFault::At(fault)),
            None => match second_look(alloc, unit, overflow, first.checks, first.places) {
                Err(_) => Err(TextFault::NoMemory),
                Ok(typed) => Ok(typed),
            },
        },
    }
}

/// What a first look at a text finds.
#[derive(Drop)]
struct FirstLook {
    faults: Vec<Refusal>,
    checks: Vec<CheckInfo>,
    places: Vec<Place>,
}

#[tactic(auto, using(l2_types::proofs::Steps::states))]
fn first_look(alloc: Global, unit: &Unit, overflow: bool) -> Result<FirstLook, CheckError>
    ensures faults { IfOk result (λ r. r.faults.items ≡ faults_of (unit_tree unit.now) overflow) }
    ensures checks { IfOk result (λ r. r.checks.items ≡ checks_of (found (unit_tree unit.now) overflow)) }
    ensures places { IfOk result (λ r. r.places.items ≡ places_of (found (unit_tree unit.now) overflow)) }
{
    let mut table = begin(alloc, unit, overflow, Vec::new(alloc), Vec::new(alloc))?;
    let _ = externals(alloc, &mut table, unit.externals.as_slice())?;
    Ok(FirstLook {
        faults: faults(alloc, &table)?,
        checks: checks_of(alloc, &table)?,
        places: places_of(alloc, &table)?,
    })
}

/// A look at a text whose checks and objects are known.
fn second_look(
    alloc: Global,
    unit: &Unit,
    overflow: bool,
    checks: Vec<CheckInfo>,
    places: Vec<Place>,
) -> Result<TypedUnit, CheckError>
    ensures ok { IfOk result (λ u. typed_tree_of u ≡ typed_form checks.items (looked (unit_tree unit.now) overflow checks.items places.items)) }
{
    let numbers = checks.as_slice().to_vec(alloc)?;
    let mut table = begin(alloc, unit, overflow, numbers, places)?;
    let functions = externals(alloc, &mut table, unit.externals.as_slice())?;
    let found = table.into_found();
    Ok(TypedUnit {
        functions: List::new(functions),
        objects: List::new(found.objects),
        loops: List::new(found.loops),
        checks: List::new(checks),
        statics: List::new(found.statics),
    })
}
