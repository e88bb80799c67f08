ghost use Rattle.std.specs.Prelude.{◌≡◌, ◌≤◌, IfOk, OnOk, MatchOption, map};
ghost use Rattle.l2_gates.specs.Gates.{literal_of, literals_of};
ghost use Rattle.l2_gates.specs.Models.{value};
ghost use Rattle.l2_goals.specs.Numbers.{numbers};
ghost use Rattle.l2_short_goals.specs.Taken.{values_of};
ghost use Rattle.l2_growing.specs.Models.{at_variables, followed, HasModelWith, IsModelWith};

use l2_cdcl::Answer;
use l2_cnf::{Assignment, ClauseList, Lit};
use l2_gates::Gates;
use l2_goals::check_list;
use l2_session::Session;
use std::alloc::{AllocError, Global};
use std::marker::Model;

/// Clauses that circuits have made, in a session of their own. After want of memory they are given up.
#[derive(Drop)]
pub struct Growing {
    session: Session,
    variables: u64,
}

impl Model for Growing {
    ghost use Rattle.std.specs.Prelude.{◌≡◌, map};
    ghost use Rattle.l2_gates.specs.Gates.{Made, literals_of};
    ghost use Rattle.l2_goals.specs.Numbers.{all_numbers};

    ghost Value = { Made };

    ghost view = { λ g. record { next = g.variables; clauses = map literals_of g.session.list } };

    ghost invariant = { λ g. all_numbers (map literals_of g.session.list) ≡ g.session.list };
}

/// Gates behind so many variables.
fn gates_at(alloc: Global, variables: u64) -> Result<Gates, AllocError>
    requires { 1 ≤ variables }
    ensures { IfOk result (λ g. g ≡ at_variables variables) }
{
    let mut gates = Gates::new(alloc)?;
    while gates.variables() < variables {
        gates.fresh()?;
    }
    Ok(gates)
}

/// Whether values make a literal true; a variable without a value is false.
pub fn is_true(a: &Assignment, literal: Lit) -> bool
    ensures { result ≡ value (values_of a.now) (literal_of literal) }
{
    let set = match a.get(literal.var()) {
        Some(value) => value,
        None => false,
    };
    if literal.is_positive() { set } else { !set }
}

/// The literals are such; there is no other answer.
fn check_literals(alloc: Global, literals: &[Lit], variables: u64) -> Result<(), AllocError>
    ensures { OnOk result (numbers (literals_of literals.now) ≡ literals.now) }
{
    let mut list = ClauseList::new(alloc);
    list.push(literals)?;
    check_list(&list, variables)
}

impl Growing {
    /// What these circuits have made.
    pub fn new(alloc: Global, gates: Gates) -> Result<Growing, AllocError>
        ensures { IfOk result (λ g. g ≡ gates) }
    {
        let variables = gates.variables();
        let clauses = gates.into_clauses();
        check_list(&clauses, variables)?;
        let mut session = Session::new(alloc);
        session.extend(&clauses)?;
        Ok(Growing { session, variables })
    }

    /// Gates for a circuit behind all variables that there are.
    pub fn gates(&self, alloc: Global) -> Result<Gates, AllocError>
        requires { 1 ≤ self.now.next }
        ensures { IfOk result (λ g. g ≡ at_variables self.now.next) }
    {
        gates_at(alloc, self.variables)
    }

    /// Appends what a circuit has made that began there.
    pub fn add(&mut self, gates: Gates) -> Result<(), AllocError>
        ensures { OnOk result (self.new ≡ followed self.old gates) }
    {
        let variables = gates.variables();
        let clauses = gates.into_clauses();
        check_list(&clauses, variables)?;
        self.session.extend(&clauses)?;
        self.variables = variables;
        Ok(())
    }

    /// Values that make the clauses and these literals true, where there are some.
    pub fn ask(&mut self, alloc: Global, literals: &[Lit]) -> Result<Option<Assignment>, AllocError>
        ensures same { self.new ≡ self.old }
        ensures is { IfOk result (λ r. MatchOption r (¬ HasModelWith self.old (literals_of literals.now))
            (λ a. IsModelWith (values_of a) self.old (literals_of literals.now))) }
    {
        check_literals(alloc, literals, self.variables)?;
        match self.session.ask(literals)? {
            Answer::Sat(values) => Ok(Some(values)),
            Answer::Unsat(_) => Ok(None),
        }
    }
}
