//! What the answers say of a program. They are functions without effect whose contracts are the laws.
ghost use Rattle.l2_verdict_laws.specs.Law.{SafeLaw, UnsafeLaw, UnwindLaw, TerminatingLaw};

use l2_cut_laws::laws::{cut_law, meet_law, turn_bound};
use l2_lower::laws::code_has_the_sets_of_its_program;

/// The program is safe where the answer is so.
pub fn safe_law()
    ensures { SafeLaw }
{
    cut_law();
    code_has_the_sets_of_its_program();
}

/// The execution that is shown breaks the check that is shown, and none with fewer arrivals breaks one.
pub fn unsafe_law()
    ensures { UnsafeLaw }
{}

/// There is no answer up to the limit exactly where no short run breaks a check and no point of the domain proves.
pub fn unwind_law()
    ensures { UnwindLaw }
{
    meet_law();
}

/// Every execution ends where the answer is so.
pub fn terminating_law()
    ensures { TerminatingLaw }
{
    l2_point_laws::laws::rank_law();
    turn_bound();
    code_has_the_sets_of_its_program();
}
