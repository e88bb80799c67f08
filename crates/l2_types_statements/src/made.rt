// Statements, made of lists of their parts.
ghost use Rattle.std.specs.Prelude.{◌≡◌};
ghost use Rattle.l2_types_statements.specs.Trees.{checked_tree, checked_onto, arms_onto, no_statements, no_arms, Block, If, IfElse};

use crate::checked::{Arm, Checked};

#[tactic(auto, using(crate::proofs::Rows::made))]
pub fn block(all: Vec<Checked>) -> Checked
    ensures { checked_tree result ≡ Block (checked_onto no_statements all.items) }
{
    Checked::Block(all)
}

#[tactic(auto, using(crate::proofs::Rows::made))]
pub fn if_of(all: Vec<Arm>) -> Checked
    ensures { checked_tree result ≡ If (arms_onto no_arms all.items) }
{
    Checked::If(all)
}

#[tactic(auto, using(crate::proofs::Rows::made))]
pub fn if_else(all: Vec<Arm>, other: Box<Checked>) -> Checked
    ensures { checked_tree result ≡ IfElse (arms_onto no_arms all.items) (checked_tree other.value) }
{
    Checked::IfElse(all, other)
}
