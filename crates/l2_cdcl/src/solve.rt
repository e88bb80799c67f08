ghost use Rattle.std.specs.Prelude.{◌≡◌, ◌⊎◌, ◌++◌, ◌∷◌, ◌≤◌, ◌<◌, [], ℕ, ℤ, List, length, take, Contains, IfOk, OnOk, OnErr, slice_index_or};
ghost use Rattle.l2_cnf.specs.Logic.{Settles};
ghost use Rattle.l2_cdcl.specs.Learning.{IsLearning};
ghost use Rattle.l2_cdcl.specs.Answering.{IsAnswer, IsClosed};

use crate::answer::Answer;
use crate::engine::{Engine, Verdict};
use l2_cnf::Lit;
use std::alloc::AllocError;

/// Answers whether the clauses have a model under these assumptions.
pub fn answer(engine: &mut Engine, assumptions: &[Lit]) -> Result<Answer, AllocError>
    ensures added { engine.new.added ≡ engine.old.added }
    ensures logged { engine.new.logged ≡ engine.old.logged }
    ensures learning { IsLearning assumptions.now engine.old.added engine.old.learnt engine.new.learnt }
    ensures answer { IfOk result (λ a. IsAnswer assumptions.now engine.old.added engine.old.learnt engine.new.learnt a) }
    ensures closed { IfOk result (λ a. IsClosed assumptions.now engine.new.learnt a) }
{
    engine.facts();
    if engine.is_refuted() {
        return Ok(Answer::Unsat(engine.core(&assumptions[..0])?));
    }
    if let Some(conflict) = engine.begin(assumptions)? {
        engine.facts();
        engine.refute(conflict)?;
        engine.facts();
        return Ok(Answer::Unsat(engine.core(&assumptions[..0])?));
    }
    match engine.search(assumptions)? {
        Verdict::Whole => {
            engine.facts();
            Ok(Answer::Sat(engine.assignment()?))
        }
        Verdict::Closed(conflict) => {
            engine.facts();
            engine.refute(conflict)?;
            engine.facts();
            Ok(Answer::Unsat(engine.core(&assumptions[..0])?))
        }
        Verdict::Refuted(n) => {
            engine.facts();
            Ok(Answer::Unsat(engine.core(&assumptions[..n])?))
        }
    }
}
