ghost use Rattle.std.specs.Prelude.{◌≡◌, ◌≤◌, ◌<◌, ◌^◌, [], false, true, length, IfOk, Some, None, codes};
ghost use Rattle.l2_cnf.specs.Logic.{AllWithin};
ghost use Rattle.l2_cnf.specs.Assignment.{completed};
ghost use Rattle.l2_derivation_file.specs.File.{spelling};
ghost use Rattle.l2_sat.specs.Texts.{model_text};
ghost use Rattle.l2_sat.specs.Formulas.{Solves};
ghost use Rattle.l2_sat.specs.Answers.{IsAnswer, file_of};

use crate::answer::{Answer, Written};
use crate::printing::model_text;
use crate::status::SatStatus;
use l2_cdcl::{Answer as Found, Solver};
use l2_cnf::{Assignment, Lines};
use l2_derivation_file::write;
use l2_dimacs::Formula;
use std::alloc::{AllocError, Global};

fn satisfied<'a>(
    alloc: Global,
    values: &Assignment,
    variables: u64,
) -> Result<Answer<'a>, AllocError>
    requires { variables ≤ 10000000 }
    ensures status { IfOk result (λ a. a.status ≡ SatStatus.Satisfiable) }
    ensures output { IfOk result (λ a. a.output.items ≡ model_text (completed values.now) variables) }
    ensures written { IfOk result (λ a. a.written ≡ None) }
{
    Ok(Answer {
        status: SatStatus::Satisfiable,
        output: model_text(alloc, values, variables)?,
        written: None,
    })
}

fn unsatisfied<'a>(alloc: Global, steps: &Lines, name: &'a str) -> Result<Answer<'a>, AllocError>
    ensures status { IfOk result (λ a. a.status ≡ SatStatus.Unsatisfiable) }
    ensures output { IfOk result (λ a. a.output.items ≡ codes "s UNSATISFIABLE\n") }
    ensures written { IfOk result (λ a. file_of a.written ≡ Some (record { name = name.now; bytes = spelling steps.now })) }
    ensures few { IfOk result (λ a. length steps.now < 2 ^ 60) }
{
    Ok(Answer {
        status: SatStatus::Unsatisfiable,
        output: String::from_str(alloc, "s UNSATISFIABLE\n")?.into_bytes(),
        written: Some(Written {
            name,
            bytes: write(alloc, steps)?,
        }),
    })
}

/// The answer of a solver that has no clause yet.
fn decide<'a>(
    alloc: Global,
    solver: &mut Solver,
    formula: &Formula,
    name: &'a str,
) -> Result<Answer<'a>, AllocError>
    requires added { solver.old.added ≡ [] }
    requires learnt { solver.old.learnt ≡ [] }
    requires logged { solver.old.logged ≡ true }
    requires asked { solver.old.asked ≡ false }
    requires within { AllWithin formula.now.variables formula.now.clauses }
    requires few { length formula.now.clauses < 10 ^ 18 }
    requires small { formula.now.variables ≤ 10000000 }
    ensures { IfOk result (IsAnswer (Solves name.now formula.now.variables formula.now.clauses)) }
{
    solver.add_list(&formula.clauses)?;
    match solver.solve(&[])? {
        Found::Sat(values) => satisfied(alloc, &values, formula.variables),
        Found::Unsat(_) => unsatisfied(alloc, solver.log(), name),
    }
}

/// What `solve` comes to on a formula.
pub fn solved<'a>(alloc: Global, formula: &Formula, name: &'a str) -> Result<Answer<'a>, AllocError>
    requires within { AllWithin formula.now.variables formula.now.clauses }
    requires few { length formula.now.clauses < 10 ^ 18 }
    requires small { formula.now.variables ≤ 10000000 }
    ensures { IfOk result (IsAnswer (Solves name.now formula.now.variables formula.now.clauses)) }
{
    let mut solver = Solver::logged(alloc);
    decide(alloc, &mut solver, formula, name)
}
