//! What holds of answers: functions without effect whose contracts are the laws.
ghost use Rattle.l2_check.specs.Law.{OneRefusal, RefusedIsNotAccepted};
ghost use Rattle.l2_check.specs.Verdict.{AcceptedIsTrue};

use l2_cnf::theorems::derived_is_implied;
use l2_goal_laws::laws::{points_prove, ranks_prove};

/// A certificate that is refused isn't accepted.
pub fn refused_is_not_accepted()
    ensures { RefusedIsNotAccepted }
{}

/// A certificate that is refused has one refusal, want of memory aside. So the answer is the same for each number of jobs and
/// each gate.
pub fn one_refusal()
    ensures { OneRefusal }
{}

/// What an accepted certificate says of a lawful program is true: no execution breaks a check, or every execution ends within the turns
/// that the rankings give.
pub fn accepted_is_true()
    ensures { AcceptedIsTrue }
{
    derived_is_implied();
    points_prove();
    ranks_prove();
}
