ghost use Rattle.std.specs.Prelude.{◌≡◌, ◌≤◌, ◌<◌, IfOk, IsErrOf, option_map};
ghost use Rattle.l2_cnf.specs.Logic.{AllWithin};
ghost use Rattle.l2_code.specs.Trees.{code_of};
ghost use Rattle.l2_code.specs.Sets.{AllRise, family};
ghost use Rattle.l2_code.specs.Sizes.{size};
ghost use Rattle.l2_unwind.specs.Refused.{most_weight};
ghost use Rattle.l2_goals.specs.Formulas.{walk_formulas_with, formulas_with, formulas};
ghost use Rattle.l2_goals.specs.Numbers.{AreFormulas, row_counts};

use crate::clauses::Endings;
use crate::filling::PointFill;
use crate::lists::check_list;
use crate::numbering::{kinds, row_counts};
use l2_blast::{Fill, blast};
use l2_cnf::ClauseList;
use l2_code::{Code, Sets};
use l2_gates::Gates;
use l2_labels::one_label;
use l2_ssa::Kind;
use l2_templates::{Point, Ranks};
use l2_unwind::{UnwindError, unwind};
use l2_walk::walk;
use std::alloc::{AllocError, Global};
use thiserror::Error;

/// The formulas of some goals: that of the goal of an index is `base`, and then the clause of this index of `last`.
#[derive(Drop)]
pub struct Goals {
    pub base: ClauseList,
    /// How many variables there are, whether or not they stand in a clause.
    pub variables: u64,
    pub last: ClauseList,
}

/// Why code has no formulas.
#[derive(Clone, Copy, Debug, PartialEq, Eq, Error)]
pub enum GoalError {
    /// It weighs more than 65,536 with its copies and rows.
    #[error("the code is too large")]
    TooLarge,
    #[error("no memory left")]
    NoMemory,
}

impl From<AllocError> for GoalError {
    ghost use Rattle.std.specs.Prelude.{◌≡◌};
    ghost use Rattle.l2_goals.specs.declared.making.GoalError.{GoalError};
    ghost use Rattle.l2_goals.specs.declared.making.GoalError.TheVariants.{NoMemory};

    ghost from_gives = { λ e f. f ≡ NoMemory };

    fn from(_error: AllocError) -> GoalError {
        GoalError::NoMemory
    }
}

/// The formulas of a code as its labels stand.
fn made<F: Fill>(
    alloc: Global,
    code: &Code,
    sets: &Sets,
    copies: u32,
    kinds: &[Kind],
    ranks: bool,
    fill: &F,
) -> Result<Goals, AllocError>
    ensures ok { IfOk result (λ g. AreFormulas g (walk_formulas_with (code_of code.now) (family sets.now) copies kinds.now ranks (F.fill fill.now))) }
    ensures within { IfOk result (λ g. AllWithin g.variables g.base × AllWithin g.variables g.last) }
{
    let ssa = walk(alloc, code, sets, copies, kinds, ranks)?;
    let mut gates = Gates::new(alloc)?;
    let words = blast(alloc, code, &ssa, fill, &mut gates)?;
    let endings = Endings {
        words: &words,
        events: ssa.events.as_slice(),
    };
    let checks = code.checks.as_slice().len();
    let last = endings.last_clauses(alloc, checks, kinds, ranks)?;
    let variables = gates.variables();
    let base = gates.into_clauses();
    check_list(&base, variables)?;
    check_list(&last, variables)?;
    Ok(Goals {
        base,
        variables,
        last,
    })
}

/// The formulas of the goals of a code with so many copies of each turn, whose loops are of these kinds, by their numbers: of rows,
/// and of rankings where these are asked for, else of checks. The fill says what rows and rankings are. Code of any weight is taken.
pub fn formulas_with<F: Fill>(
    alloc: Global,
    code: &Code,
    sets: &Sets,
    copies: u32,
    kinds: &[Kind],
    ranks: bool,
    fill: &F,
) -> Result<Goals, AllocError>
    ensures ok { IfOk result (λ g. AreFormulas g (formulas_with (code_of code.now) (family sets.now) copies kinds.now ranks (F.fill fill.now))) }
    ensures within { IfOk result (λ g. AllWithin g.variables g.base × AllWithin g.variables g.last) }
{
    let code = one_label(alloc, code)?;
    made(alloc, &code, sets, copies, kinds, ranks, fill)
}

/// The formulas of the goals of a code with so many copies of each turn at a point: of rows, and of rankings where there are some,
/// else of checks.
pub fn goals_of(
    alloc: Global,
    code: &Code,
    sets: &Sets,
    copies: u32,
    point: &Point,
    ranks: Option<&Ranks>,
) -> Result<Goals, GoalError>
    requires { AllRise sets.now.sets }
    ensures ok { IfOk result (λ g. AreFormulas g (formulas (code_of code.now) (family sets.now) copies point.now (option_map (λ r. r.now) ranks.entry))) }
    ensures within { IfOk result (λ g. AllWithin g.variables g.base × AllWithin g.variables g.last) }
    ensures small { IfOk result (λ g. size (code_of code.now) (family sets.now) copies (row_counts point.now) ≤ most_weight) }
    ensures too_large { IsErrOf result GoalError.TooLarge → most_weight < size (code_of code.now) (family sets.now) copies (row_counts point.now) }
{
    let rows = row_counts(alloc, point)?;
    match unwind(alloc, code, sets, copies, &rows) {
        Ok(_flat) => {}
        Err(UnwindError::TooLarge { .. }) => return Err(GoalError::TooLarge),
        Err(UnwindError::NoMemory) => return Err(GoalError::NoMemory),
    }
    let kinds = kinds(alloc, point)?;
    let fill = PointFill { code, point, ranks };
    Ok(formulas_with(alloc, code, sets, copies, &kinds, ranks.is_some(), &fill)?)
}
