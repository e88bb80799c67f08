ghost use Rattle.std.specs.Prelude.{◌≡◌, Some, IfOk, string_bytes};
ghost use Rattle.l2_answer.specs.Printed.{outcome_text, broken_text, replay_line, ListsBroken};
ghost use Rattle.l2_runs.specs.Numbers.{at_number};
ghost use Rattle.l2_meaning.specs.Lawful.{IsSome};

use l2_program::CheckInfo;
use l2_replay::Replay;
use l2_runs::{Outcome, index_of};
use l2_status::{place_text, push_number};
use std::alloc::{AllocError, Global};

/// A broken check, by its kind and its place.
fn broken_text(alloc: Global, check: &CheckInfo) -> Result<String, AllocError>
    ensures { IfOk result (λ s. string_bytes s ≡ broken_text check.now) }
{
    let place = place_text(alloc, check.place)?;
    let mut text = String::from_str(alloc, "BROKEN ")?;
    text.push_str(check.kind.name())?;
    text.push_str(" ")?;
    text.push_str(place.as_str())?;
    Ok(text)
}

/// The check of this number.
fn check_at(checks: &[CheckInfo], number: u32) -> &CheckInfo
    requires { IsSome (at_number checks.now number) }
    ensures { at_number checks.now number ≡ Some result.now }
{
    match index_of(number) {
        Some(index) => &checks[index],
        None => unreachable!(),
    }
}

/// How an outcome is printed.
fn outcome_text(alloc: Global, checks: &[CheckInfo], outcome: Outcome) -> Result<String, AllocError>
    requires { ListsBroken checks.now outcome }
    ensures { IfOk result (λ s. outcome_text checks.now outcome ≡ Some (string_bytes s)) }
{
    match outcome {
        Outcome::Ended => String::from_str(alloc, "ENDED"),
        Outcome::Stopped => String::from_str(alloc, "STOPPED"),
        Outcome::Broken(number) => broken_text(alloc, check_at(checks, number)),
        Outcome::OutOfChoices => String::from_str(alloc, "OUT OF CHOICES"),
        Outcome::OutOfTurns => String::from_str(alloc, "OUT OF TURNS"),
    }
}

/// The line that is printed for an execution.
pub fn replay_line(
    alloc: Global,
    checks: &[CheckInfo],
    replay: Replay,
) -> Result<Vec<u8>, AllocError>
    requires { ListsBroken checks.now replay.outcome }
    ensures { IfOk result (λ line. replay_line checks.now replay.outcome replay.turns_used replay.choices_used ≡ Some line.items) }
{
    let mut text = outcome_text(alloc, checks, replay.outcome)?;
    text.push_str(" turns=")?;
    push_number(alloc, &mut text, replay.turns_used)?;
    text.push_str(" choices=")?;
    push_number(alloc, &mut text, replay.choices_used)?;
    text.push_str("\n")?;
    Ok(text.into_bytes())
}
