// What holds of checks: a law without code.
ghost use Rattle.l2_check_answer.specs.Law.{AcceptedLaw};

use l2_check::laws::accepted_is_true;
use l2_small_check::programs_are_lawful;

/// Where the check of a file against a text ends well the text is a program, and the verdict that is printed is true of it: no execution
/// breaks a check, or every execution ends within the turns that the file's rankings give.
pub fn accepted_law()
    ensures { AcceptedLaw }
{
    accepted_is_true();
    programs_are_lawful();
}
