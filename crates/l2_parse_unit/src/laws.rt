// What holds of refusals: a law without code.
ghost use Rattle.l2_parse_unit.specs.Reading.{RefusedLaw, UniqueRefusalLaw, UniqueUnitLaw};

use l2_tree_laws::unique_tree_law;

#[tactic(auto, using(crate::proofs::Refused::refused))]
/// What is refused spells no unit.
pub fn refused_law()
    ensures { RefusedLaw }
{}

/// Tokens spell at most one unit.
#[tactic(auto, using(crate::proofs::Unique::unique))]
pub fn unique_unit_law()
    ensures { UniqueUnitLaw }
{
    unique_tree_law();
}

/// No text is refused in two ways.
pub fn unique_refusal_law()
    ensures { UniqueRefusalLaw }
{}
