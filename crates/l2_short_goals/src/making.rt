// The formulas of short runs.
ghost use Rattle.std.specs.Prelude.{◌≡◌, ◌≤◌, ◌<◌, [], false, map, IfOk, IsErrOf};
ghost use Rattle.l2_cnf.specs.Logic.{AllWithin};
ghost use Rattle.l2_code.specs.Trees.{code_of};
ghost use Rattle.l2_code.specs.Sets.{AllRise, family};
ghost use Rattle.l2_code.specs.Sizes.{size};
ghost use Rattle.l2_gates.specs.Gates.{literals_of};
ghost use Rattle.l2_unwind.specs.Refused.{most_weight};
ghost use Rattle.l2_goals.specs.Formulas.{walk_formulas_with};
ghost use Rattle.l2_goals.specs.Numbers.{AreFormulas};
ghost use Rattle.l2_short_goals.specs.Shorts.{no_fill, plain_kinds};
ghost use Rattle.l2_short_goals.specs.Taken.{choice_of, short_choices, short_heads, AreShorts};

use crate::filling::NoFill;
use crate::taking::{Taken, all_taken, literals};
use l2_bits::List;
use l2_blast::blast;
use l2_cnf::Lit;
use l2_code::{Code, CodeLoop, Sets};
use l2_gates::Gates;
use l2_goals::{Endings, GoalError, Goals, check_list};
use l2_labels::one_label;
use l2_ssa::Kind;
use l2_unwind::{UnwindError, unwind};
use l2_walk::walk;
use std::alloc::{AllocError, Global};

/// The formulas of a code's short runs, one for each check, with at most `k` arrivals at a head an entry of its loop; and the choices
/// and the arrivals at heads, in the order in which they come.
#[derive(Drop)]
pub struct ShortGoals {
    pub k: u32,
    pub goals: Goals,
    pub taken: List<Taken>,
    /// The paths of the arrivals.
    pub heads: List<Lit>,
}

fn plain_kinds(alloc: Global, loops: &[CodeLoop]) -> Result<Vec<Kind>, AllocError>
    ensures { IfOk result (λ kinds. kinds.items ≡ map (λ l. Kind.Plain) loops.now) }
{
    let mut kinds = Vec::new(alloc);
    for _each in loops {
        kinds.push(Kind::Plain)?;
    }
    Ok(kinds)
}

/// The same of a code as its labels stand, whatever it weighs.
fn made(alloc: Global, code: &Code, sets: &Sets, k: u32) -> Result<ShortGoals, AllocError>
    ensures k { IfOk result (λ s. s.k ≡ k) }
    ensures goals { IfOk result (λ s. AreFormulas s.goals (walk_formulas_with (code_of code.now) (family sets.now) k (plain_kinds (code_of code.now)) false no_fill)) }
    ensures taken { IfOk result (λ s. map choice_of s.taken ≡ short_choices (code_of code.now) (family sets.now) k) }
    ensures heads { IfOk result (λ s. literals_of s.heads ≡ short_heads (code_of code.now) (family sets.now) k) }
    ensures within { IfOk result (λ s. AllWithin s.goals.variables s.goals.base × AllWithin s.goals.variables s.goals.last) }
{
    let kinds = plain_kinds(alloc, code.loops.as_slice())?;
    let ssa = walk(alloc, code, sets, k, &kinds, false)?;
    let mut gates = Gates::new(alloc)?;
    let words = blast(alloc, code, &ssa, &NoFill {}, &mut gates)?;
    let endings = Endings {
        words: &words,
        events: ssa.events.as_slice(),
    };
    let checks = code.checks.as_slice().len();
    let last = endings.last_clauses(alloc, checks, &kinds, false)?;
    let taken = all_taken(alloc, &words, &ssa)?;
    let heads = literals(alloc, &words, ssa.heads.as_slice())?;
    let variables = gates.variables();
    let base = gates.into_clauses();
    check_list(&base, variables)?;
    check_list(&last, variables)?;
    Ok(ShortGoals {
        k,
        goals: Goals {
            base,
            variables,
            last,
        },
        taken: List::new(taken),
        heads: List::new(heads),
    })
}

/// The formulas of the short runs of a code with at most `k` arrivals at a head an entry of its loop: that of a check is satisfiable
/// where some such run breaks it.
pub fn short(alloc: Global, code: &Code, sets: &Sets, k: u32) -> Result<ShortGoals, GoalError>
    requires { AllRise sets.now.sets }
    ensures k { IfOk result (λ s. s.k ≡ k) }
    ensures ok { IfOk result (λ s. AreShorts s (code_of code.now) (family sets.now)) }
    ensures within { IfOk result (λ s. AllWithin s.goals.variables s.goals.base × AllWithin s.goals.variables s.goals.last) }
    ensures small { IfOk result (λ s. size (code_of code.now) (family sets.now) k [] ≤ most_weight) }
    ensures too_large { IsErrOf result GoalError.TooLarge → most_weight < size (code_of code.now) (family sets.now) k [] }
{
    match unwind(alloc, code, sets, k, &[]) {
        Ok(_flat) => {}
        Err(UnwindError::TooLarge { .. }) => return Err(GoalError::TooLarge),
        Err(UnwindError::NoMemory) => return Err(GoalError::NoMemory),
    }
    let code = one_label(alloc, code)?;
    Ok(made(alloc, &code, sets, k)?)
}
