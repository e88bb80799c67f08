ghost use Rattle.std.specs.Prelude.{◌≡◌};
ghost use Rattle.l2_answer.specs.Statuses.{status_of};

use l2_runs::Outcome;
use l2_status::Status;

/// The status that a replay with this outcome ends with.
pub fn status_of(outcome: Outcome) -> Status
    ensures { result ≡ status_of outcome }
{
    match outcome {
        Outcome::Ended => Status::Fine,
        Outcome::Stopped => Status::Fine,
        Outcome::Broken(_) => Status::Unsafe,
        Outcome::OutOfChoices => Status::Short,
        Outcome::OutOfTurns => Status::Short,
    }
}
