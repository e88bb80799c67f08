// A walk over a tree.
ghost use Rattle.std.specs.Prelude.{◌≡◌, ◌++◌, IfOk};
ghost use Rattle.l2_program.specs.Checked.{typed_tree, checked_tree, checked_trees};
ghost use Rattle.l2_meaning.specs.Scopes.{behind};
ghost use Rattle.l2_meaning.specs.Changes.{changes_of, changes_in, all_changes_in, loop_sets, all_loop_sets};
ghost use Rattle.l2_mods.specs.Walks.{cells_in, statics_in};

use crate::walk::Walk;
use l2_program::{Checked, Lvalue, ObjectInfo, Typed};
use std::alloc::{AllocError, Global};

/// Goes over an expression.
pub fn evaluate(walk: &mut Walk, e: &Typed) -> Result<(), AllocError>
    ensures { IfOk result (λ u. walk.new ≡ record walk.old { changed = walk.old.changed ++ changes_of (typed_tree e.now) }) }
{
    match e {
        Typed::Constant(_, _) => Ok(()),
        Typed::Choice(_) => Ok(()),
        Typed::Read(_, _) => Ok(()),
        Typed::Unary(_, _, _, e) => evaluate(walk, e),
        Typed::Binary(_, _, _, x, y) => {
            evaluate(walk, x)?;
            evaluate(walk, y)
        }
        Typed::Convert(_, e) => evaluate(walk, e),
        Typed::Assign(_, Lvalue::Object(n), e) => {
            walk.change(*n)?;
            evaluate(walk, e)
        }
        Typed::Assert(_, e) => evaluate(walk, e),
    }
}

/// Goes over a statement.
#[cycle(visit)]
#[tactic(auto, using(crate::proofs::Steps::steps))]
pub fn visit(
    alloc: Global,
    objects: &[ObjectInfo],
    walk: &mut Walk,
    s: &Checked,
) -> Result<(), AllocError>
    ensures { IfOk result (λ u. walk.new ≡ record walk.old { changed = walk.old.changed ++ changes_in (checked_tree s.now); sets = walk.old.sets ++ loop_sets (cells_in objects.now) (statics_in objects.now) walk.old.scope (checked_tree s.now) }) }
{
    match s {
        Checked::Block(all) => block(alloc, objects, walk, all),
        Checked::Declare(n) => walk.change(*n),
        Checked::Static(n) => walk.change(*n),
        Checked::Initialise(n, e) => {
            walk.change(*n)?;
            evaluate(walk, e)
        }
        Checked::Label(_) => Ok(()),
        Checked::Evaluate(e) => evaluate(walk, e),
        Checked::If(e, s) => {
            evaluate(walk, e)?;
            visit(alloc, objects, walk, s)
        }
        Checked::IfElse(e, s, t) => {
            evaluate(walk, e)?;
            visit(alloc, objects, walk, s)?;
            visit(alloc, objects, walk, t)
        }
        Checked::While(number, named, e, s) => {
            let from = walk.changes();
            let index = walk.open(alloc, *number)?;
            evaluate(walk, e)?;
            visit(alloc, objects, walk, s)?;
            walk.close(alloc, objects, index, from, *number, named.as_slice())
        }
        Checked::Return(e) => evaluate(walk, e),
    }
}

/// Goes over the items of a block, whose objects go out of scope at its end.
#[cycle(visit)]
#[tactic(auto, using(crate::proofs::Steps::steps))]
fn block(
    alloc: Global,
    objects: &[ObjectInfo],
    walk: &mut Walk,
    all: &[Checked],
) -> Result<(), AllocError>
    ensures { IfOk result (λ u. walk.new ≡ record walk.old { changed = walk.old.changed ++ all_changes_in (checked_trees all.now); sets = walk.old.sets ++ all_loop_sets (cells_in objects.now) (statics_in objects.now) walk.old.scope (checked_trees all.now) }) }
{
    let outside = walk.in_scope();
    for s in all {
        visit(alloc, objects, walk, s)?;
        go_behind(walk, s)?;
    }
    walk.leave(outside);
    Ok(())
}

/// What an item declares is in scope behind it.
fn go_behind(walk: &mut Walk, s: &Checked) -> Result<(), AllocError>
    ensures { IfOk result (λ u. walk.new ≡ record walk.old { scope = behind walk.old.scope (checked_tree s.now) }) }
{
    match s {
        Checked::Declare(n) => walk.enter(*n),
        Checked::Initialise(n, _) => walk.enter(*n),
        Checked::Block(_) => Ok(()),
        Checked::Static(_) => Ok(()),
        Checked::Label(_) => Ok(()),
        Checked::Evaluate(_) => Ok(()),
        Checked::If(_, _) => Ok(()),
        Checked::IfElse(_, _, _) => Ok(()),
        Checked::While(_, _, _, _) => Ok(()),
        Checked::Return(_) => Ok(()),
    }
}
