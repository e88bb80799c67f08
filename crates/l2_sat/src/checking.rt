ghost use Rattle.std.specs.Prelude.{◌≡◌, ℕ, List, IfOk, IfSome, OnOk, IsErrOf, length};
ghost use Rattle.l2_cnf.specs.Logic.{AllWithin};
ghost use Rattle.l2_rup.specs.Checked.{formula_of, fresh};
ghost use Rattle.l2_derivations.specs.Goals.{FailsAt, IsOpen, IsRefuted};
ghost use Rattle.l2_derivations.specs.Sizes.{literals_of};
ghost use Rattle.l2_sat.specs.Formulas.{AreSteps, Checks};
ghost use Rattle.l2_sat.specs.Answers.{IsAnswer};

use crate::answer::Answer;
use crate::printing::{fixed, numbered};
use crate::status::SatStatus;
use l2_cnf::Lines;
use l2_derivation_file::{FileError, read};
use l2_dimacs::Formula;
use l2_rup::Checker;
use std::alloc::{AllocError, Global};

/// Why steps show nothing.
#[derive(Clone, Copy, Debug, PartialEq, Eq)]
enum Fault {
    /// This step, counted from 1, isn't accepted.
    Step(u64),
    /// The last step isn't the empty clause.
    Open,
}

/// How many literals the clauses of some steps have. More than memory can hold are none.
fn literals_in(steps: &Lines) -> Option<u64>
    ensures { IfSome result (λ n. n ≡ literals_of steps.now) }
{
    let mut size = 0u64;
    for i in 0..steps.len() {
        size = size.checked_add(steps.clause(i).len() as u64)?;
    }
    Some(size)
}

/// Checks the steps by a checker that has room for them.
fn check_steps(checker: &mut Checker<'_>, steps: &Lines) -> Result<(), Fault>
    requires { checker.old ≡ fresh checker.old.base checker.old.last checker.old.variables (length steps.now) (literals_of steps.now) }
    ensures ok { OnOk result (IsRefuted (formula_of checker.old) checker.old.variables steps.now) }
    ensures step { (s : ℕ) → IsErrOf result (Fault.Step s) → FailsAt (formula_of checker.old) checker.old.variables steps.now s }
    ensures open_ { IsErrOf result Fault.Open → IsOpen (formula_of checker.old) checker.old.variables steps.now }
{
    for i in 0..steps.len() {
        if checker
            .step(steps.number(i), steps.clause(i), steps.hints(i))
            .is_err()
        {
            return Err(Fault::Step(i + 1));
        }
    }
    if checker.closed() {
        Ok(())
    } else {
        Err(Fault::Open)
    }
}

/// What steps come to on a formula.
fn checked<'a>(alloc: Global, formula: &Formula, steps: &Lines) -> Result<Answer<'a>, AllocError>
    requires { AllWithin formula.now.variables formula.now.clauses }
    ensures { (bytes : List ℕ) → AreSteps bytes steps.now →
        IfOk result (IsAnswer (Checks bytes formula.now.variables formula.now.clauses)) }
{
    let Some(literals) = literals_in(steps) else {
        return Err(AllocError);
    };
    let mut checker = Checker::without_last(
        alloc,
        &formula.clauses,
        formula.variables,
        steps.len(),
        literals,
    )?;
    match check_steps(&mut checker, steps) {
        Ok(()) => fixed(alloc, SatStatus::Accepted, "ACCEPTED\n"),
        Err(Fault::Step(step)) => numbered(
            alloc,
            SatStatus::FileRefused,
            "DERIVATION BadStep ",
            step,
        ),
        Err(Fault::Open) => fixed(alloc, SatStatus::FileRefused, "DERIVATION Unclosed\n"),
    }
}

/// What `check` comes to on a formula and the bytes of PROOF.
pub fn proof_checked<'a>(
    alloc: Global,
    formula: &Formula,
    bytes: &[u8],
) -> Result<Answer<'a>, AllocError>
    requires { AllWithin formula.now.variables formula.now.clauses }
    ensures { IfOk result (IsAnswer (Checks bytes.now formula.now.variables formula.now.clauses)) }
{
    match read(alloc, bytes) {
        Ok(steps) => checked(alloc, formula, &steps),
        Err(FileError::BadLine { line }) => numbered(
            alloc,
            SatStatus::FileRefused,
            "DERIVATION BadLine ",
            line,
        ),
        Err(FileError::NoMemory) => Err(AllocError),
    }
}
