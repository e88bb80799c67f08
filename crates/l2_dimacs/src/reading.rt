ghost use Rattle.std.specs.Prelude.{◌≡◌, ◌≤◌, ◌<◌, ◌^◌, ◌-◌, ◌++◌, ◌∷◌, [], ℕ, List, ℤ, nat_abs, OnOk, IsErrOf, MatchOption, MatchBool, ◌↔◌};
ghost use Rattle.l2_cnf.specs.Lit.{positive as sign_of};
ghost use Rattle.l2_dimacs.specs.Tokens.{token};
ghost use Rattle.l2_dimacs.specs.Profile.{IsNumber};
ghost use Rattle.l2_dimacs.specs.Reading.{Completes, Goes, Kept, Stops};

use crate::number::{Item, read_item, read_number};
use crate::reader::Formula;
use l2_cnf::{ClauseList, Lit};
use std::alloc::Global;

/// What the next token is to be.
#[derive(Clone, Copy, Debug, PartialEq, Eq)]
pub enum Stage {
    /// `p`
    Format,
    /// `cnf`
    Name,
    /// The greatest variable.
    Variables,
    /// The number of clauses.
    Count,
    /// A literal, or the end of a clause or of all clauses.
    Clauses,
    /// Anything: nothing more is read.
    Over,
}

/// Why a token was not taken.
#[derive(Clone, Copy, Debug, PartialEq, Eq)]
pub enum TokenError {
    Bad,
    NoMemory,
}

/// A formula that is being read.
#[derive(Drop)]
pub struct Reading {
    pub stage: Stage,
    /// The line of the first token.
    pub line: u64,
    pub variables: u64,
    /// How many clauses are still to come.
    pub to_come: u64,
    /// Those that were read.
    pub clauses: ClauseList,
    /// The literals of the clause that is being read.
    pub part: Vec<Lit>,
}

const MOST_VARIABLES: u64 = 10_000_000;

impl Reading {
    pub fn new(alloc: Global) -> Reading
        ensures stage { result.stage ≡ Stage.Format }
        ensures clauses { result.clauses ≡ [] }
        ensures part { result.part.items ≡ [] }
    {
        Reading {
            stage: Stage::Format,
            line: 0,
            variables: 0,
            to_come: 0,
            clauses: ClauseList::new(alloc),
            part: Vec::new(alloc),
        }
    }

    fn take_format(&mut self, word: &[u8], line: u64) -> Result<(), TokenError>
        requires stage { self.old.stage ≡ Stage.Format }
        requires kept { Kept self.old }
        ensures ok { OnOk result (Goes self.old (token line word.now) self.new) }
        ensures kept { OnOk result (Kept self.new) }
        ensures bad { IsErrOf result TokenError.Bad → Stops self.old (token line word.now) }
    {
        if word != b"p".as_slice() {
            return Err(TokenError::Bad);
        }
        self.line = line;
        self.stage = Stage::Name;
        Ok(())
    }

    fn take_name(&mut self, word: &[u8], line: u64) -> Result<(), TokenError>
        requires stage { self.old.stage ≡ Stage.Name }
        requires kept { Kept self.old }
        ensures ok { OnOk result (Goes self.old (token line word.now) self.new) }
        ensures kept { OnOk result (Kept self.new) }
        ensures bad { IsErrOf result TokenError.Bad → Stops self.old (token line word.now) }
    {
        if line != self.line || word != b"cnf".as_slice() {
            return Err(TokenError::Bad);
        }
        self.stage = Stage::Variables;
        Ok(())
    }

    /// The number on the line of the first token.
    fn number_here(&self, word: &[u8], line: u64, most: u64) -> Option<u64>
        ensures { MatchOption result
            ((n : ℕ) → line ≡ self.now.line → n ≤ most → ¬ IsNumber word.now n)
            (λ n. (line ≡ self.now.line) × IsNumber word.now n × (n ≤ most)) }
    {
        if line != self.line {
            return None;
        }
        match read_number(word) {
            Some(n) if n <= most => Some(n),
            _ => None,
        }
    }

    fn take_variables(&mut self, word: &[u8], line: u64) -> Result<(), TokenError>
        requires stage { self.old.stage ≡ Stage.Variables }
        requires kept { Kept self.old }
        ensures ok { OnOk result (Goes self.old (token line word.now) self.new) }
        ensures kept { OnOk result (Kept self.new) }
        ensures bad { IsErrOf result TokenError.Bad → Stops self.old (token line word.now) }
    {
        let Some(variables) = self.number_here(word, line, MOST_VARIABLES) else {
            return Err(TokenError::Bad);
        };
        self.variables = variables;
        self.stage = Stage::Count;
        Ok(())
    }

    fn take_count(&mut self, word: &[u8], line: u64) -> Result<(), TokenError>
        requires stage { self.old.stage ≡ Stage.Count }
        requires kept { Kept self.old }
        ensures ok { OnOk result (Goes self.old (token line word.now) self.new) }
        ensures kept { OnOk result (Kept self.new) }
        ensures bad { IsErrOf result TokenError.Bad → Stops self.old (token line word.now) }
    {
        let Some(count) = self.number_here(word, line, u64::MAX) else {
            return Err(TokenError::Bad);
        };
        self.to_come = count;
        self.stage = Stage::Clauses;
        Ok(())
    }

    /// Behind the last clause.
    fn take_percent(&mut self, word: &[u8], line: u64) -> Result<(), TokenError>
        requires stage { self.old.stage ≡ Stage.Clauses }
        requires kept { Kept self.old }
        requires none { self.old.to_come ≡ 0 }
        ensures ok { OnOk result (Goes self.old (token line word.now) self.new) }
        ensures kept { OnOk result (Kept self.new) }
        ensures bad { IsErrOf result TokenError.Bad → Stops self.old (token line word.now) }
    {
        if word != b"%".as_slice() {
            return Err(TokenError::Bad);
        }
        self.stage = Stage::Over;
        Ok(())
    }

    /// Within the clauses.
    fn take_item(&mut self, word: &[u8], line: u64) -> Result<(), TokenError>
        requires stage { self.old.stage ≡ Stage.Clauses }
        requires kept { Kept self.old }
        requires some { 1 ≤ self.old.to_come }
        ensures ok { OnOk result (Goes self.old (token line word.now) self.new) }
        ensures kept { OnOk result (Kept self.new) }
        ensures bad { IsErrOf result TokenError.Bad → Stops self.old (token line word.now) }
    {
        match read_item(word, self.variables) {
            Some(Item::End) => self.end_clause(),
            Some(Item::Positive(var)) => self.push_literal(var, true),
            Some(Item::Negative(var)) => self.push_literal(var, false),
            None => Err(TokenError::Bad),
        }
    }

    fn end_clause(&mut self) -> Result<(), TokenError>
        requires { 1 ≤ self.old.to_come }
        ensures stage { self.new.stage ≡ self.old.stage }
        ensures variables { self.new.variables ≡ self.old.variables }
        ensures ended { OnOk result ((self.new.clauses ≡ self.old.clauses ++ self.old.part.items ∷ [])
            × (self.new.part.items ≡ []) × (self.new.to_come ≡ self.old.to_come - 1)) }
        ensures memory { IsErrOf result TokenError.Bad → ⊥ }
    {
        if self.clauses.push(self.part.as_slice()).is_err() {
            return Err(TokenError::NoMemory);
        }
        self.part.clear();
        self.to_come -= 1;
        Ok(())
    }

    fn push_literal(&mut self, var: u64, positive: bool) -> Result<(), TokenError>
        requires low { 1 ≤ var }
        requires high { var < 10 ^ 18 }
        ensures stage { self.new.stage ≡ self.old.stage }
        ensures variables { self.new.variables ≡ self.old.variables }
        ensures clauses { self.new.clauses ≡ self.old.clauses }
        ensures part { OnOk result ((l : ℤ) × (nat_abs l ≡ var) × (sign_of l ≡ positive)
            × (self.new.part.items ≡ self.old.part.items ++ l ∷ [])) }
        ensures to_come { self.new.to_come ≡ self.old.to_come }
        ensures memory { IsErrOf result TokenError.Bad → ⊥ }
    {
        let literal = Lit::new(var, positive);
        if self.part.push(literal).is_err() {
            return Err(TokenError::NoMemory);
        }
        Ok(())
    }

    /// Takes the next token.
    pub fn take(&mut self, word: &[u8], line: u64) -> Result<(), TokenError>
        requires { Kept self.old }
        ensures ok { OnOk result (Goes self.old (token line word.now) self.new) }
        ensures kept { OnOk result (Kept self.new) }
        ensures bad { IsErrOf result TokenError.Bad → Stops self.old (token line word.now) }
    {
        match self.stage {
            Stage::Format => self.take_format(word, line),
            Stage::Name => self.take_name(word, line),
            Stage::Variables => self.take_variables(word, line),
            Stage::Count => self.take_count(word, line),
            Stage::Clauses if self.to_come == 0 => self.take_percent(word, line),
            Stage::Clauses => self.take_item(word, line),
            Stage::Over => Ok(()),
        }
    }

    /// Whether all of a formula was read.
    pub fn is_whole(&self) -> bool
        requires { Kept self.now }
        ensures { MatchBool result
            ((v : ℕ) (clauses : List (List ℤ)) → Completes self.now [] v clauses ↔ ((v ≡ self.now.variables) × (clauses ≡ self.now.clauses)))
            ((v : ℕ) (clauses : List (List ℤ)) → ¬ Completes self.now [] v clauses) }
    {
        match self.stage {
            Stage::Clauses => self.to_come == 0,
            Stage::Over => true,
            _ => false,
        }
    }

    pub fn into_formula(self) -> Formula
        ensures variables { result.variables ≡ self.variables }
        ensures clauses { result.clauses ≡ self.clauses }
    {
        let Reading {
            variables,
            clauses,
            ..
        } = self;
        Formula { variables, clauses }
    }
}
