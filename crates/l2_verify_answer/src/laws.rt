// What holds of decisions: laws without code.
ghost use Rattle.l2_verify_answer.specs.Law.{TerminatedLaw, VerifiedLaw};

use l2_small_check::programs_are_lawful;
use l2_verdict_laws::laws::{safe_law, terminating_law, unsafe_law};

/// Where a decision ends with status 0 no execution of the text's program breaks a check; where it ends with status 10 the printed one
/// does.
pub fn verified_law()
    ensures { VerifiedLaw }
{
    programs_are_lawful();
    safe_law();
    unsafe_law();
}

/// Where a decision ends with status 0 every execution of the text's program ends within the turns that the printed rankings give.
pub fn terminated_law()
    ensures { TerminatedLaw }
{
    programs_are_lawful();
    terminating_law();
}
