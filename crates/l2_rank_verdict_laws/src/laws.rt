//! What the answers to whether all executions end say. They are functions without effect whose contracts are the laws.
ghost use Rattle.l2_rank_verdict_laws.specs.Law.{UnrankedLaw};

use l2_cut_laws::laws::meet_law;
use l2_point_laws::laws::rank_law;
use l2_rank_laws::laws::stuck_law;

/// There is no answer up to the limit exactly where at no point of the domain lists of candidates rank the loops.
pub fn unranked_law()
    ensures { UnrankedLaw }
{
    meet_law();
    rank_law();
    stuck_law();
}
