// The answer of a program by points of the domain of this name.
ghost use Rattle.std.specs.Prelude.{◌≡◌, ◌≤◌, IfOk};
ghost use Rattle.l2_program.specs.Programs.{program_tree};
ghost use Rattle.l2_code.specs.Trees.{code_of};
ghost use Rattle.l2_code.specs.Sets.{family};
ghost use Rattle.l2_row_engine.specs.Cutting.{Belongs};
ghost use Rattle.l2_verdicts.specs.Verdicts.{IsVerdict};
ghost use Rattle.l2_verify_answer.specs.Bounds.{AreThresholds, bounds_named, forms_named};

use l2_code::{Code, Sets};
use l2_engine::verdict;
use l2_kiki::{Decision, Mode};
use l2_program::Program;
use l2_templates::{Equalities, Intervals, NoRows, Octagons, Zones};
use l2_words::DomainName;
use std::alloc::{AllocError, Global};

fn thresholds(alloc: Global, program: &Program) -> Result<Vec<i128>, AllocError>
    ensures { IfOk result (λ all. all.items ≡ program.now.thresholds) }
{
    Vec::from_slice(alloc, program.thresholds.as_slice())
}

/// What is answered of a program by points of a domain, with up to so many copies of a turn.
pub fn decision(
    alloc: Global,
    program: &Program,
    code: &Code,
    sets: &Sets,
    domain: DomainName,
    mode: Mode,
    unwind: u32,
) -> Result<Decision, AllocError>
    requires belongs { Belongs (program_tree program.now) (code_of code.now) sets.now }
    requires bounds { AreThresholds program.now.thresholds }
    requires some { 1 ≤ unwind }
    ensures { IfOk result (λ d. IsVerdict (program_tree program.now) (code_of code.now) (family sets.now) (forms_named domain) (bounds_named domain program.now.thresholds) mode unwind d) }
{
    match domain {
        DomainName::NoRows => verdict(alloc, program, code, sets, &NoRows, mode, unwind),
        DomainName::Equalities => verdict(alloc, program, code, sets, &Equalities, mode, unwind),
        DomainName::Intervals => {
            let intervals = Intervals::new(thresholds(alloc, program)?);
            verdict(alloc, program, code, sets, &intervals, mode, unwind)
        }
        DomainName::Zones => {
            let zones = Zones::new(thresholds(alloc, program)?);
            verdict(alloc, program, code, sets, &zones, mode, unwind)
        }
        DomainName::Octagons => {
            let octagons = Octagons::new(thresholds(alloc, program)?);
            verdict(alloc, program, code, sets, &octagons, mode, unwind)
        }
    }
}
