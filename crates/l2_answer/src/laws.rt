// What holds of answers: laws without code.
ghost use Rattle.l2_answer.specs.Answers.{StatusLaw};
ghost use Rattle.l2_answer.specs.Headline.{CheckedLaw, TerminatedLaw, VerifiedLaw};

use l2_check_answer::accepted_law;

/// No answer has the status of a fault of writing, or of want of memory.
#[tactic(auto, using(crate::proofs::Statuses::answered))]
pub fn status_law()
    ensures { StatusLaw }
{}

/// Where a run of `check` ends with status 0 the file that it read is a program, and the verdict that it printed is true of it.
pub fn checked_law()
    ensures { CheckedLaw }
{
    accepted_law();
}

/// Where a run of `verify` ends with status 0 or 10 what it prints is true of the program that it read.
pub fn verified_law()
    ensures { VerifiedLaw }
{
    l2_verify_answer::verified_law();
}

/// Where a run of `termination` ends with status 0 what it prints is true of the program that it read.
pub fn terminated_law()
    ensures { TerminatedLaw }
{
    l2_verify_answer::terminated_law();
}
