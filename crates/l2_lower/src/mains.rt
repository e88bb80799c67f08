// The instructions of `main`.
ghost use Rattle.std.specs.Prelude.{◌≡◌, map, Some, codes, option_map};
ghost use Rattle.std.specs.Str.{bytes_eq};
ghost use Rattle.l2_program.specs.Checked.{checked_tree};
ghost use Rattle.l2_program.specs.Programs.{program_tree, function_tree};
ghost use Rattle.l2_meaning.specs.Execution.{cells_of, name_of, main_among};
ghost use Rattle.l2_meaning.specs.Lawful.{IsTypedStatement, main_result};
ghost use Rattle.l2_lower.specs.Statements.{HaveFewCells};
ghost use Rattle.l2_lower.specs.Code.{declarations, body_code, main_code};
ghost use Rattle.l2_lower.specs.Output.{output, Emits, Anything};

use crate::emitter::Counts;
use crate::error::LowerError;
use crate::statements::{declare, leave, statement};
use l2_code::Item;
use l2_program::{FunctionInfo, Program};
use l2_syntax::Name;
use std::alloc::Global;

/// Whether this is the number of the name `main`.
fn is_main(names: &[Name], n: u32) -> bool
    ensures { result ≡ bytes_eq (name_of names.now n) (codes "main") }
{
    match names.get(n as usize) {
        Some(name) => name.bytes.as_slice() == b"main".as_slice(),
        None => false,
    }
}

/// The function of the name `main`.
pub fn main_among<'a>(names: &[Name], functions: &'a [FunctionInfo]) -> Option<&'a FunctionInfo>
    ensures { option_map (λ f. function_tree f.now) result ≡ main_among names.now (map function_tree functions.now) }
{
    for f in functions {
        if is_main(names, f.name) {
            return Some(f);
        }
    }
    None
}

/// The parameters are declared.
#[tactic(auto, using(crate::proofs::Outputs::loops))]
fn declare_all(
    alloc: Global,
    p: &Program,
    out: &mut Vec<Item>,
    at: &mut Counts,
    objects: &[u32],
) -> Result<(), LowerError>
    requires { HaveFewCells (program_tree p.now) }
    ensures { Emits (declarations (cells_of (program_tree p.now)) at.old.next objects.now).nodes (declarations (cells_of (program_tree p.now)) at.old.next objects.now).next Anything (output out.old.items at.old) (output out.new.items at.new) result }
{
    for i in 0..objects.len() {
        declare(alloc, p, out, at, objects[i])?;
    }
    Ok(())
}

/// The body, and what is behind it.
#[tactic(auto, using(crate::proofs::Outputs::outputs))]
fn body_code(
    alloc: Global,
    p: &Program,
    out: &mut Vec<Item>,
    at: &mut Counts,
    f: &FunctionInfo,
) -> Result<(), LowerError>
    requires few { HaveFewCells (program_tree p.now) }
    requires typed { IsTypedStatement (cells_of (program_tree p.now)) main_result (checked_tree f.now.body) }
    ensures { Emits (body_code (cells_of (program_tree p.now)) at.old.next (function_tree f.now)).nodes (body_code (cells_of (program_tree p.now)) at.old.next (function_tree f.now)).next Anything (output out.old.items at.old) (output out.new.items at.new) result }
{
    let mut scope = f.parameters.as_slice().to_vec(alloc)?;
    statement(alloc, p, out, at, &mut scope, &f.body)?;
    leave(alloc, out, at, f.parameters.as_slice())
}

/// The instructions of `main`.
#[tactic(auto, using(crate::proofs::Outputs::outputs))]
pub fn main_code(
    alloc: Global,
    p: &Program,
    out: &mut Vec<Item>,
    at: &mut Counts,
    f: &FunctionInfo,
) -> Result<(), LowerError>
    requires few { HaveFewCells (program_tree p.now) }
    requires typed { IsTypedStatement (cells_of (program_tree p.now)) main_result (checked_tree f.now.body) }
    ensures { Emits (main_code (cells_of (program_tree p.now)) at.old.next (Some (function_tree f.now))).nodes (main_code (cells_of (program_tree p.now)) at.old.next (Some (function_tree f.now))).next Anything (output out.old.items at.old) (output out.new.items at.new) result }
{
    declare_all(alloc, p, out, at, f.parameters.as_slice())?;
    body_code(alloc, p, out, at, f)
}
