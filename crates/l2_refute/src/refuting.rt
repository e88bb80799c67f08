ghost use Rattle.std.specs.Prelude.{◌≡◌, ◌+◌, ◌≤◌, ◌<◌, ◌^◌, ◌++◌, ◌∷◌, [], false, true, IfOk, OnOk, IsTrue, MatchOption, length};
ghost use Rattle.l2_cnf.specs.Logic.{AllWithin};
ghost use Rattle.l2_refute.specs.Refuting.{AreRefuted, HasModel, IsDecided, Refute, SomeHasModel};

use l2_cdcl::{Answer, Solver};
use l2_cnf::{ClauseList, Lines, Lit};
use std::alloc::{AllocError, Global};

/// The numbers of a file are below this.
const MOST: u64 = 1 << 62;

/// Whether a solver with a log, and no clause yet, refutes a goal's formula; else this has a model.
fn is_refuted(solver: &mut Solver, base: &ClauseList, last: &[Lit]) -> Result<bool, AllocError>
    requires added { solver.old.added ≡ [] }
    requires learnt { solver.old.learnt ≡ [] }
    requires logged { solver.old.logged ≡ true }
    requires asked { solver.old.asked ≡ false }
    ensures added { OnOk result (solver.new.added ≡ base.now ++ last.now ∷ []) }
    ensures logged { solver.new.logged ≡ true }
    ensures is { IfOk result (λ b. IsDecided b (base.now ++ last.now ∷ []) solver.new.learnt) }
{
    solver.add_list(base)?;
    solver.add(last)?;
    match solver.solve(&[])? {
        Answer::Sat(_) => Ok(false),
        Answer::Unsat(_) => Ok(true),
    }
}

/// A file can spell steps over so many variables behind these clauses and one more.
fn can_be_spelt(base: &ClauseList, steps: &Lines, variables: u64) -> bool
    ensures { IsTrue result → (length base.now + 1 + length steps.now < 2 ^ 62) × (variables < 2 ^ 62) × (length steps.now < 2 ^ 60) }
{
    base.len() + 1 + steps.len() < MOST && variables < MOST
}

/// The steps that refute a goal's formula, or None where it has a model.
fn refute(
    alloc: Global,
    base: &ClauseList,
    last: &[Lit],
    variables: u64,
) -> Result<Option<Lines>, AllocError>
    requires { AllWithin variables (base.now ++ last.now ∷ []) }
    ensures { IfOk result (λ r. MatchOption r (HasModel (base.now ++ last.now ∷ [])) (Refute variables (base.now ++ last.now ∷ []))) }
{
    let mut solver = Solver::logged(alloc);
    if !is_refuted(&mut solver, base, last)? {
        return Ok(None);
    }
    let steps = solver.into_log();
    if can_be_spelt(base, &steps, variables) {
        Ok(Some(steps))
    } else {
        Err(AllocError)
    }
}

/// For each goal the steps that refute its formula, which is the base and the last clause of its index; or None where the formula
/// of some goal has a model. More variables than a file can name are want of memory.
pub fn refute_goals(
    alloc: Global,
    base: &ClauseList,
    last: &ClauseList,
    variables: u64,
) -> Result<Option<Vec<Lines>>, AllocError>
    requires base { AllWithin variables base.now }
    requires last { AllWithin variables last.now }
    ensures { IfOk result (λ r. MatchOption r (SomeHasModel base.now last.now) (λ steps. AreRefuted (record { base = base.now; variables = variables; last = last.now; steps = steps.items }))) }
{
    let mut all = Vec::new(alloc);
    for i in 0..last.len() {
        let Some(steps) = refute(alloc, base, last.clause(i), variables)? else {
            return Ok(None);
        };
        all.push(steps)?;
    }
    Ok(Some(all))
}
