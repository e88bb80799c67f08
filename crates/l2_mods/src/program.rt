// Programs.
ghost use Rattle.std.specs.Prelude.{◌≡◌, ◌++◌, map, [], IfOk};
ghost use Rattle.l2_program.specs.Programs.{function_tree, program_tree};
ghost use Rattle.l2_meaning.specs.Changes.{loop_sets, functions_loop_sets, take_sets, with_loop_sets};
ghost use Rattle.l2_mods.specs.Walks.{cells_in, statics_in, sets_of_functions};

use crate::visit::visit;
use crate::walk::Walk;
use l2_bits::List;
use l2_meaning::LoopSets;
use l2_program::{FunctionInfo, LoopInfo, ObjectInfo, Program};
use std::alloc::{AllocError, Global};

/// The program whose loops have the sets of its trees.
pub fn with_loop_sets(alloc: Global, program: Program) -> Result<Program, AllocError>
    ensures { IfOk result (λ p. program_tree p ≡ with_loop_sets (program_tree program)) }
{
    let sets = program_sets(
        alloc,
        program.objects.as_slice(),
        program.functions.as_slice(),
    )?;
    let Program {
        objects,
        functions,
        loops,
        checks,
        names,
        static_values,
        thresholds,
    } = program;
    Ok(Program {
        objects,
        functions,
        loops: List::new(take_sets(loops.into_vec(), sets)),
        checks,
        names,
        static_values,
        thresholds,
    })
}

/// The sets of the loops of all functions.
fn program_sets(
    alloc: Global,
    objects: &[ObjectInfo],
    functions: &[FunctionInfo],
) -> Result<Vec<LoopSets>, AllocError>
    ensures { IfOk result (λ sets. sets.items ≡ sets_of_functions objects.now (map function_tree functions.now)) }
{
    let mut walk = Walk::new(alloc);
    for f in functions {
        function_sets(alloc, objects, &mut walk, f)?;
    }
    Ok(walk.into_sets())
}

/// Goes over a function, whose parameters are in scope in its body.
fn function_sets(
    alloc: Global,
    objects: &[ObjectInfo],
    walk: &mut Walk,
    f: &FunctionInfo,
) -> Result<(), AllocError>
    requires { walk.old.scope ≡ [] }
    ensures { IfOk result (λ u. walk.new ≡ record { scope = []; changed = []; sets = walk.old.sets ++ loop_sets (cells_in objects.now) (statics_in objects.now) (function_tree f.now).parameters (function_tree f.now).body }) }
{
    enter_all(walk, f.parameters.as_slice())?;
    visit(alloc, objects, walk, &f.body)?;
    walk.leave(0);
    walk.forget_changes();
    Ok(())
}

/// These objects are in scope from here on.
fn enter_all(walk: &mut Walk, all: &[u32]) -> Result<(), AllocError>
    ensures { IfOk result (λ u. walk.new ≡ record walk.old { scope = walk.old.scope ++ all.now }) }
{
    for n in all {
        walk.enter(*n)?;
    }
    Ok(())
}

/// One loop after another takes its sets.
fn take_sets(loops: Vec<LoopInfo>, sets: Vec<LoopSets>) -> Vec<LoopInfo>
    ensures { result.items ≡ take_sets loops.items sets.items }
{
    let mut loops = loops;
    let mut index = 0;
    for s in sets {
        if index < loops.len() {
            give(&mut loops[index], s);
            index += 1;
        }
    }
    loops
}

/// A loop takes its sets.
fn give(info: &mut LoopInfo, s: LoopSets)
    ensures { info.new ≡ record info.old { mods = s.mods; vars = s.vars } }
{
    info.mods = s.mods;
    info.vars = s.vars;
}
