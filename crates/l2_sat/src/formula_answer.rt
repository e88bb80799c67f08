ghost use Rattle.std.specs.Prelude.{◌≡◌, IfOk};
ghost use Rattle.l2_sat.specs.Formulas.{Checks, Solves};
ghost use Rattle.l2_sat.specs.Answers.{IsAnswer, OfText};

use crate::answer::Answer;
use crate::checking::proof_checked;
use crate::printing::numbered;
use crate::solving::solved;
use crate::status::SatStatus;
use l2_dimacs::{DimacsError, read};
use std::alloc::{AllocError, Global};

/// What `solve` comes to on the text of FILE.
pub fn solve_answer<'a>(alloc: Global, text: &[u8], name: &'a str) -> Result<Answer<'a>, AllocError>
    ensures { IfOk result (IsAnswer (OfText text.now (Solves name.now))) }
{
    match read(alloc, text) {
        Ok(formula) => solved(alloc, &formula, name),
        Err(DimacsError::BadLine { line }) => numbered(
            alloc,
            SatStatus::FormulaRefused,
            "DIMACS ",
            line,
        ),
        Err(DimacsError::NoMemory) => Err(AllocError),
    }
}

/// What `check` comes to on the text of FILE and the bytes of PROOF.
pub fn check_answer<'a>(alloc: Global, text: &[u8], bytes: &[u8]) -> Result<Answer<'a>, AllocError>
    ensures { IfOk result (IsAnswer (OfText text.now (Checks bytes.now))) }
{
    match read(alloc, text) {
        Ok(formula) => proof_checked(alloc, &formula, bytes),
        Err(DimacsError::BadLine { line }) => numbered(
            alloc,
            SatStatus::FormulaRefused,
            "DIMACS ",
            line,
        ),
        Err(DimacsError::NoMemory) => Err(AllocError),
    }
}
