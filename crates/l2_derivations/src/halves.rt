ghost use Rattle.std.specs.Prelude.{◌≡◌, ◌≤◌, ◌<◌, ℕ, OnOk, IsErrOf, length};
ghost use denote.Param.Send.{IsSync, IsSend, Frees};
ghost use Rattle.l2_derivations.specs.Goals.{AllHold, BreaksAt, StaysOpen};
ghost use Rattle.l2_derivations.specs.Problems.{Fits, goals_of};

use crate::goal::GoalError;
use crate::runs::{Gate, Problem, check_run};
use std::alloc::Global;
use std::marker::{Send, Sync};
use std::thread::{Threads, join};

/// Checks the goals from an index on and before another in at most so many runs, by halves.
#[cycle(halves)]
fn check_halves<R: Threads + Sync, G: Gate + Sync>(
    rt: &R,
    alloc: Global,
    all: Problem<'_>,
    from: usize,
    to: usize,
    jobs: u32,
    gate: &G,
) -> Result<(), GoalError>
    requires fits { Fits all }
    requires order { from ≤ to }
    requires within { to ≤ length all.steps.now }
    ensures ok { OnOk result (AllHold (goals_of all.entry) from to) }
    ensures bad_step { (n s : ℕ) → IsErrOf result (GoalError.BadStep n s) → BreaksAt (goals_of all.entry) from to n s }
    ensures unclosed { (n : ℕ) → IsErrOf result (GoalError.Unclosed n) → StaysOpen (goals_of all.entry) from to n }
{
    if jobs < 2 || to - from < 2 {
        return check_run(alloc, all, from, to, gate);
    }
    let low = jobs / 2;
    let high = jobs - low;
    let middle = from + (to - from) / 2;
    let front = move || -> Result<(), GoalError>
        requires { IsSync R.row × IsSync G.row × Fits all × (from ≤ middle) × (middle ≤ length all.steps.now) }
        ensures ok { OnOk result (AllHold (goals_of all.entry) from middle) }
        ensures bad_step { (n s : ℕ) → IsErrOf result (GoalError.BadStep n s) → BreaksAt (goals_of all.entry) from middle n s }
        ensures unclosed { (n : ℕ) → IsErrOf result (GoalError.Unclosed n) → StaysOpen (goals_of all.entry) from middle n }
    { check_halves(rt, alloc, all, from, middle, low, gate) };
    let back = move || -> Result<(), GoalError>
        requires { IsSync R.row × IsSync G.row × Fits all × (middle ≤ to) × (to ≤ length all.steps.now) }
        ensures ok { OnOk result (AllHold (goals_of all.entry) middle to) }
        ensures bad_step { (n s : ℕ) → IsErrOf result (GoalError.BadStep n s) → BreaksAt (goals_of all.entry) middle to n s }
        ensures unclosed { (n : ℕ) → IsErrOf result (GoalError.Unclosed n) → StaysOpen (goals_of all.entry) middle to n }
    { check_halves(rt, alloc, all, middle, to, high, gate) };
    let (first, second) = join(rt, front, back);
    match first {
        Ok(()) => second,
        Err(error) => Err(error),
    }
}

/// Checks that each goal is refuted by its steps, in at most so many runs of goals at once. The answer is that of the
/// first goal that fails, whatever the number of jobs.
pub fn check_goals<R: Threads + Sync, G: Gate + Sync>(
    rt: &R,
    alloc: Global,
    all: Problem<'_>,
    jobs: u32,
    gate: &G,
) -> Result<(), GoalError>
    requires { Fits all }
    ensures ok { OnOk result (AllHold (goals_of all.entry) 0 (length all.entry.steps.now)) }
    ensures bad_step { (n s : ℕ) → IsErrOf result (GoalError.BadStep n s) → BreaksAt (goals_of all.entry) 0 (length all.entry.steps.now) n s }
    ensures unclosed { (n : ℕ) → IsErrOf result (GoalError.Unclosed n) → StaysOpen (goals_of all.entry) 0 (length all.entry.steps.now) n }
{
    check_halves(rt, alloc, all, 0, all.steps.len(), jobs, gate)
}
