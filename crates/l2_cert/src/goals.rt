ghost use Rattle.std.specs.Prelude.{◌≡◌, ◌≤◌, ◌<◌, ◌^◌, OnOk, IsErrOf, length};
ghost use Rattle.l2_cert.specs.Cursor.{left};
ghost use Rattle.l2_cert.specs.Machine.{State, Takes, AtGoals, AtGoal, AtStep, AtEnd, at, goals_left, steps_left};
ghost use Rattle.l2_cert.specs.Reading.{cert_of, state_of};

use crate::lines::{goal_of, is_only, numbered};
use crate::reading::{Reading, Stage};
use crate::steps::{LineError, read_step};
use crate::words::Words;
use l2_cnf::Lines;
use std::alloc::Global;
use std::mem;

impl Reading {
    /// To the next goal, or to the end where none is left.
    fn go_to_goals(&mut self)
        ensures { state_of self.new ≡ at (goals_left self.old.left) (cert_of self.old) }
    {
        self.stage = if self.left == 0 {
            Stage::End
        } else {
            Stage::Goal
        };
    }

    /// Takes the number of goals.
    pub fn take_goals(&mut self, words: Words<'_>) -> Result<(), LineError>
        ensures ok { OnOk result (Takes AtGoals (cert_of self.old) (left words.entry) (state_of self.new)) }
        ensures bad { IsErrOf result LineError.Bad → (t : State) → ¬ Takes AtGoals (cert_of self.old) (left words.entry) t }
    {
        let Some(goals) = numbered(words, b"goals", 0, u64::from(u32::MAX)) else {
            return Err(LineError::Bad);
        };
        self.left = goals as u32;
        self.go_to_goals();
        Ok(())
    }

    /// Goes on behind a step, to the next one or to the next goal.
    fn go_to_steps(&mut self, alloc: Global) -> Result<(), LineError>
        ensures ok { OnOk result (state_of self.new ≡ steps_left self.old.left (cert_of self.old) self.old.more self.old.steps) }
        ensures memory { IsErrOf result LineError.Bad → ⊥ }
    {
        if self.more > 0 {
            self.stage = Stage::Step;
            return Ok(());
        }
        let steps = mem::replace(&mut self.steps, Lines::new(alloc));
        if self.goals.push(steps).is_err() {
            return Err(LineError::NoMemory);
        }
        self.go_to_goals();
        Ok(())
    }

    /// Takes the first line of a goal.
    pub fn take_goal(&mut self, alloc: Global, words: Words<'_>) -> Result<(), LineError>
        requires some { 1 ≤ self.old.left }
        requires few { length self.old.goals.items < 2 ^ 32 }
        ensures ok { OnOk result (Takes (AtGoal self.old.left) (cert_of self.old) (left words.entry) (state_of self.new)) }
        ensures bad { IsErrOf result LineError.Bad → (t : State) → ¬ Takes (AtGoal self.old.left) (cert_of self.old) (left words.entry) t }
    {
        let Some(steps) = goal_of(words, self.goals.len() as u64 + 1) else {
            return Err(LineError::Bad);
        };
        self.left -= 1;
        self.steps = Lines::new(alloc);
        self.more = steps;
        self.go_to_steps(alloc)
    }

    /// Takes a step.
    pub fn take_step(&mut self, alloc: Global, words: Words<'_>) -> Result<(), LineError>
        requires { 1 ≤ self.old.more }
        ensures ok { OnOk result (Takes (AtStep self.old.left self.old.more self.old.steps) (cert_of self.old) (left words.entry) (state_of self.new)) }
        ensures bad { IsErrOf result LineError.Bad → (t : State) → ¬ Takes (AtStep self.old.left self.old.more self.old.steps) (cert_of self.old) (left words.entry) t }
    {
        let number = match read_step(words, &mut self.clause, &mut self.hints) {
            Ok(number) => number,
            Err(error) => return Err(error),
        };
        if self
            .steps
            .push(number, self.clause.as_slice(), self.hints.as_slice())
            .is_err()
        {
            return Err(LineError::NoMemory);
        }
        self.more -= 1;
        self.go_to_steps(alloc)
    }

    /// Takes the last line.
    pub fn take_end(&mut self, words: Words<'_>) -> Result<(), LineError>
        ensures ok { OnOk result (Takes AtEnd (cert_of self.old) (left words.entry) (state_of self.new)) }
        ensures bad { IsErrOf result LineError.Bad → (t : State) → ¬ Takes AtEnd (cert_of self.old) (left words.entry) t }
    {
        if !is_only(words, b"end") {
            return Err(LineError::Bad);
        }
        self.stage = Stage::Over;
        Ok(())
    }
}
