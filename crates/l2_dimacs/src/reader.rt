ghost use Rattle.std.specs.Prelude.{◌≡◌, ◌≤◌, ◌<◌, ◌^◌, length, ℕ, ℤ, List, IfOk, IsErrOf, MatchResult};
ghost use Rattle.l2_cnf.specs.Logic.{AllWithin};
ghost use Rattle.l2_dimacs.specs.Profile.{IsFile, IsRefused};

use crate::cursor::Tokens;
use crate::reading::{Reading, TokenError};
use crate::tokens::line_count;
use l2_cnf::ClauseList;
use std::alloc::Global;
use thiserror::Error;

/// A formula that was read.
#[derive(Drop)]
pub struct Formula {
    /// The greatest variable that a clause may have, at most 10,000,000.
    pub variables: u64,
    /// The clauses in their order. A literal may stand in one more than once.
    pub clauses: ClauseList,
}

/// Why a text was not read as a formula.
#[derive(Clone, Copy, Debug, PartialEq, Eq, Error)]
pub enum DimacsError {
    /// On this line stands the first token with which no formula goes on behind those before it, or there the text ends too
    /// early. Lines are counted from 1.
    #[error("line {line} is in no formula")]
    BadLine { line: u64 },
    #[error("out of memory")]
    NoMemory,
}

/// Reads a formula. The work is in proportion to the text's length.
pub fn read(alloc: Global, text: &[u8]) -> Result<Formula, DimacsError>
    ensures ok { IfOk result (λ f. IsFile text.now f.variables f.clauses) }
    ensures within { IfOk result (λ f. AllWithin f.variables f.clauses) }
    ensures few { IfOk result (λ f. (length f.clauses < 10 ^ 18) × (f.variables ≤ 10000000)) }
    ensures bad_line { (line : ℕ) → IsErrOf result (DimacsError.BadLine line) → IsRefused text.now line }
    // a text that is a formula is read as this one, and as no other
    ensures exactly { (v : ℕ) (clauses : List (List ℤ)) → IsFile text.now v clauses →
        MatchResult result (λ f. (f.variables ≡ v) × (f.clauses ≡ clauses)) (λ e. e ≡ DimacsError.NoMemory) }
{
    let mut reading = Reading::new(alloc);
    let mut tokens = Tokens::new(text);
    while let Some(first) = tokens.first() {
        match reading.take(first.word, first.line) {
            Ok(()) => tokens = first.rest,
            Err(TokenError::Bad) => return Err(DimacsError::BadLine { line: first.line }),
            Err(TokenError::NoMemory) => return Err(DimacsError::NoMemory),
        }
    }
    if reading.is_whole() {
        Ok(reading.into_formula())
    } else {
        Err(DimacsError::BadLine {
            line: line_count(text),
        })
    }
}
