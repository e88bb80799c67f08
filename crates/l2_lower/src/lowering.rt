ghost use Rattle.std.specs.Prelude.{◌≡◌, ◌≢◌, ◌≤◌, ◌<◌, ◌+◌, ◌-◌, [], map, IfOk, IfErr};
ghost use Rattle.l2_program.specs.Programs.{program_tree};
ghost use Rattle.l2_meaning.specs.Execution.{cells_of, main_among};
ghost use Rattle.l2_meaning.specs.Lawful.{IsLawful};
ghost use Rattle.l2_code.specs.Trees.{items_of, code_of};
ghost use Rattle.l2_code.specs.Sizes.{instructions};
ghost use Rattle.l2_code.specs.WellFormed.{IsWellFormed};
ghost use Rattle.l2_lower.specs.declared.error.LowerError.TheVariants.{NoMemory};
ghost use Rattle.l2_lower.specs.Code.{code_objects, code_check, code_loop, main_code, code};
ghost use Rattle.l2_lower.specs.Output.{most_instructions, output, Emits, Anything};

use crate::emitter::{self, Counts};
use crate::error::LowerError;
use crate::mains::{main_among, main_code};
use crate::tables::{checks, loops, objects};
use l2_bits::List;
use l2_code::{Code, Item};
use l2_program::Program;
use std::alloc::{AllocError, Global};

/// The instructions of a program.
#[tactic(auto, using(crate::proofs::Outputs::outputs))]
fn program_code(
    alloc: Global,
    p: &Program,
    out: &mut Vec<Item>,
    at: &mut Counts,
) -> Result<(), LowerError>
    requires { IsLawful (program_tree p.now) }
    ensures { Emits (main_code (cells_of (program_tree p.now)) at.old.next (main_among (program_tree p.now).names (program_tree p.now).functions)).nodes (main_code (cells_of (program_tree p.now)) at.old.next (main_among (program_tree p.now).names (program_tree p.now).functions)).next Anything (output out.old.items at.old) (output out.new.items at.new) result }
{
    match main_among(p.names.as_slice(), p.functions.as_slice()) {
        Some(f) => main_code(alloc, p, out, at, f),
        None => emitter::end(alloc, out, at),
    }
}

/// The instructions of a program with its lists.
fn assembled(alloc: Global, p: &Program, temps: u32, items: Vec<Item>) -> Result<Code, AllocError>
    ensures { IfOk result (λ c. code_of c ≡ record { objects = code_objects (program_tree p.now).names (program_tree p.now).static_values (program_tree p.now).objects; pointed = []; checks = map code_check (program_tree p.now).checks; loops = map code_loop (program_tree p.now).loops; temps = temps; body = items_of items.items }) }
{
    Ok(Code {
        objects: List::new(objects(alloc, p)?),
        pointed: List::new(Vec::new(alloc)),
        checks: List::new(checks(alloc, p.checks.as_slice())?),
        loops: List::new(loops(alloc, p.loops.as_slice())?),
        temps,
        items,
    })
}

/// The code of a program, by its definition.
fn lowered(alloc: Global, program: &Program) -> Result<Code, LowerError>
    requires { IsLawful (program_tree program.now) }
    ensures ok { IfOk result (λ c. code_of c ≡ code (program_tree program.now)) }
    ensures few { IfOk result (λ c. instructions (code (program_tree program.now)).body ≤ most_instructions) }
    ensures too_large { IfErr result (λ e. e ≢ NoMemory → most_instructions < instructions (code (program_tree program.now)).body) }
{
    let mut items = Vec::new(alloc);
    let mut at = Counts::new();
    program_code(alloc, program, &mut items, &mut at)?;
    let code = assembled(alloc, program, at.temps(), items)?;
    Ok(code)
}

/// The code of a program.
pub fn lower(alloc: Global, program: &Program) -> Result<Code, LowerError>
    requires { IsLawful (program_tree program.now) }
    ensures ok { IfOk result (λ c. code_of c ≡ code (program_tree program.now)) }
    ensures well_formed { IfOk result (λ c. IsWellFormed (code_of c)) }
    ensures few { IfOk result (λ c. instructions (code (program_tree program.now)).body ≤ most_instructions) }
    ensures too_large { IfErr result (λ e. e ≢ NoMemory → most_instructions < instructions (code (program_tree program.now)).body) }
{
    lowered(alloc, program)
}
