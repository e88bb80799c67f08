// Statements with rows of others in them.
ghost use Rattle.std.specs.Prelude.{◌≡◌, IfOk, IfErr};
ghost use Rattle.l2_tree.specs.Trees.{Block as block_tree, If as if_tree, IfElse as if_else_tree, no_stmts};
ghost use Rattle.l2_tree.specs.Units.{stmt_tree, stmts_onto, branches_tree};

use l2_build::BuildError;
use l2_syntax::Place;
use l2_tree::{Branch, Stmt};
use std::alloc::Global;

/// `{ .. }`.
pub fn block(alloc: Global, place: Place, items: Vec<Stmt>) -> Result<Box<Stmt>, BuildError>
    ensures ok { IfOk result (λ t. stmt_tree t.value ≡ block_tree place (stmts_onto no_stmts items.items)) }
    ensures err { IfErr result (λ f. f ≡ BuildError.NoMemory) }
{
    Ok(Box::new(alloc, Stmt::Block(place, items))?)
}

/// Branches without a last `else`.
pub fn chosen(alloc: Global, first: Branch, others: Vec<Branch>) -> Result<Box<Stmt>, BuildError>
    ensures ok { IfOk result (λ t. stmt_tree t.value ≡ if_tree (branches_tree first others.items)) }
    ensures err { IfErr result (λ f. f ≡ BuildError.NoMemory) }
{
    Ok(Box::new(alloc, Stmt::If(first, others))?)
}

/// Branches with a last `else`.
pub fn chosen_or(
    alloc: Global,
    first: Branch,
    others: Vec<Branch>,
    otherwise: Box<Stmt>,
) -> Result<Box<Stmt>, BuildError>
    ensures ok { IfOk result (λ t. stmt_tree t.value ≡ if_else_tree (branches_tree first others.items) (stmt_tree otherwise.value)) }
    ensures err { IfErr result (λ f. f ≡ BuildError.NoMemory) }
{
    Ok(Box::new(alloc, Stmt::IfElse(first, others, otherwise))?)
}
