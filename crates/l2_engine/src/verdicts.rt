// What is answered of a program.
ghost use Rattle.std.specs.Prelude.{◌≡◌, ◌≤◌, IfOk, length, map};
ghost use Rattle.l2_program.specs.Programs.{program_tree};
ghost use Rattle.l2_code.specs.Trees.{code_of};
ghost use Rattle.l2_code.specs.Sets.{family};
ghost use Rattle.l2_row_engine.specs.Cutting.{Belongs};
ghost use Rattle.l2_verdicts.specs.Verdicts.{IsVerdict, forms_of};

use crate::engine::Engine;
use crate::task::Task;
use l2_code::{Code, Sets};
use l2_kiki::{Decision, Mode, decide};
use l2_program::{LoopInfo, Program};
use l2_row_laws::laws::strongest_law;
use l2_templates::{Domain, Form};
use std::alloc::{AllocError, Global};

/// The forms of each loop's rows.
fn forms_of<D: Domain>(
    alloc: Global,
    domain: &D,
    loops: &[LoopInfo],
) -> Result<Vec<Vec<Form>>, AllocError>
    ensures { IfOk result (λ all. map (λ f. f.items) all.items ≡ forms_of (D.family domain.now) loops.now) }
{
    let mut all = Vec::new(alloc);
    for info in loops {
        let forms = domain.rows(alloc, info.vars.as_slice(), info.mods.as_slice())?;
        all.push(forms)?;
    }
    Ok(all)
}

/// How many these are; memory has no room for more than 32 bits can number.
fn count(forms: &[Form]) -> Result<u32, AllocError>
    ensures { IfOk result (λ n. n ≡ length forms.now) }
{
    match u32::try_from(forms.len()) {
        Ok(n) => Ok(n),
        Err(_) => Err(AllocError),
    }
}

fn counts_of(alloc: Global, all: &[Vec<Form>]) -> Result<Vec<u32>, AllocError>
    ensures { IfOk result (λ counts. counts.items ≡ map length (map (λ f. f.items) all.now)) }
{
    let mut counts = Vec::new(alloc);
    for i in 0..all.len() {
        let n = count(all[i].as_slice())?;
        counts.push(n)?;
    }
    Ok(counts)
}

/// What is answered of a lawful program with its code and closed sets, by points of a domain: the first k up to the limit with an
/// answer.
pub fn verdict<D: Domain>(
    alloc: Global,
    program: &Program,
    code: &Code,
    sets: &Sets,
    domain: &D,
    mode: Mode,
    limit: u32,
) -> Result<Decision, AllocError>
    requires belongs { Belongs (program_tree program.now) (code_of code.now) sets.now }
    requires some { 1 ≤ limit }
    ensures { IfOk result (λ d. IsVerdict (program_tree program.now) (code_of code.now) (family sets.now) (D.family domain.now) (D.bounds domain.now) mode limit d) }
{
    strongest_law();
    let forms = forms_of(alloc, domain, program.loops.as_slice())?;
    let counts = counts_of(alloc, forms.as_slice())?;
    let task = Task::new(
        program,
        code,
        sets,
        forms.as_slice(),
        counts.as_slice(),
        domain.thresholds(),
    );
    let mut engine = Engine::new(task);
    decide(alloc, &mut engine, limit, mode)
}
