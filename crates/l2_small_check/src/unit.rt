// Units.
ghost use Rattle.std.specs.Prelude.{◌≡◌, List, ◌∷◌, [], Some, None, map, IfOk, IfErr, IsErrOf};
ghost use Rattle.l2_bits.specs.Types.{int_type};
ghost use Rattle.l2_runs.specs.declared.cells.CellType.TheVariants.{Integer};
ghost use Rattle.l2_small.specs.SmallTrees.{none, small_unit_tree};
ghost use Rattle.l2_program.specs.Checked.{checked_tree};
ghost use Rattle.l2_program.specs.Programs.{function_tree, program_tree};
ghost use Rattle.l2_syntax.specs.declared.token.Token.{Token};
ghost use Rattle.l2_meaning.specs.Lawful.{IsLawful};
ghost use Rattle.l2_meaning.specs.Thresholds.{thresholds_of};
ghost use Rattle.l2_small_check.specs.Elaboration.{program_of, program_with, main_name, block, stays};
ghost use Rattle.l2_small_check.specs.Founds.{found_of};
ghost use Rattle.l2_small_check.specs.declared.error.CheckError.TheVariants.{NoMemory};

use crate::error::CheckError;
use crate::found::Found;
use crate::statements::items;
use crate::table::{Table, number};
use l2_bits::{List, Ty};
use l2_mods::with_loop_sets;
use l2_program::{Checked, FunctionInfo, Program};
use l2_runs::CellType;
use l2_small::SmallUnit;
use l2_syntax::{Name, Place};
use l2_thresholds::thresholds;
use std::alloc::Global;

/// The program of a unit of the small form: names stand for the objects that are in scope (C11 6.2.1), and objects, loops
/// and checks are numbered from 1 in the order of the text. Its one function is `main`, whose name stands behind the
/// unit's names. More loops, checks or names than a `u32` counts are want of memory.
pub fn check(alloc: Global, unit: SmallUnit) -> Result<Program, CheckError>
    ensures ok { IfOk result (λ p. program_of (small_unit_tree unit) ≡ Some (program_tree p)) }
    ensures not_small { IsErrOf result CheckError.NotSmall → program_of (small_unit_tree unit) ≡ None }
    ensures lawful { IfOk result (λ p. IsLawful (program_tree p)) }
{
    program_of(alloc, unit)
}

/// The program of a unit.
#[tactic(auto, using(crate::proofs::Steps::steps))]
fn program_of(alloc: Global, unit: SmallUnit) -> Result<Program, CheckError>
    ensures ok { IfOk result (λ p. program_of (small_unit_tree unit) ≡ Some (program_tree p)) }
    ensures not_small { IsErrOf result CheckError.NotSmall → program_of (small_unit_tree unit) ≡ None }
{
    let SmallUnit {
        main,
        items: all,
        names,
        constants,
    } = unit;
    let mut table = Table::new(alloc);
    let body = items(alloc, &mut table, &all)?;
    let bounds = thresholds(alloc, constants.as_slice())?;
    let program = program_with(alloc, main, names, table.into_found(), body, bounds)?;
    Ok(with_loop_sets(alloc, program)?)
}

/// The name of the one function.
fn main_name(alloc: Global) -> Result<Name, CheckError>
    ensures ok { IfOk result (λ n. n ≡ main_name) }
    ensures err { IfErr result (λ f. f ≡ NoMemory) }
{
    Ok(Name {
        bytes: List::new(b"main".to_vec(alloc)?),
    })
}

/// A program by its parts.
fn program_with(
    alloc: Global,
    main: Place,
    names: List<Name>,
    found: Found,
    body: Vec<Checked>,
    thresholds: Vec<i128>,
) -> Result<Program, CheckError>
    ensures ok { (constants : List Token) → thresholds.items ≡ thresholds_of constants → IfOk result (λ p. program_with (record { main = main; items = none; names = names; constants = constants }) (stays [] (found_of found) (map checked_tree body.items)) ≡ program_tree p) }
    ensures err { IfErr result (λ f. f ≡ NoMemory) }
{
    let mut names = names.into_vec();
    let name = number(names.len())?;
    names.push(main_name(alloc)?)?;
    let mut functions = Vec::new(alloc);
    functions.push(main_function(alloc, name, main, body)?)?;
    Ok(Program {
        objects: found.objects,
        functions: List::new(functions),
        loops: found.loops,
        checks: found.checks,
        names: List::new(names),
        static_values: List::new(Vec::new(alloc)),
        thresholds: List::new(thresholds),
    })
}

/// The one function.
#[tactic(auto, using(crate::proofs::Steps::steps))]
fn main_function(
    alloc: Global,
    name: u32,
    place: Place,
    body: Vec<Checked>,
) -> Result<FunctionInfo, CheckError>
    ensures ok { IfOk result (λ f. function_tree f ≡ record { name = name; place = place; parameters = []; result = Integer int_type ∷ []; body = block (map checked_tree body.items) }) }
    ensures err { IfErr result (λ f. f ≡ NoMemory) }
{
    Ok(FunctionInfo {
        name,
        place,
        parameters: List::new(Vec::new(alloc)),
        result: List::new([CellType::Integer(Ty::INT)].to_vec(alloc)?),
        body: Checked::Block(body),
    })
}
