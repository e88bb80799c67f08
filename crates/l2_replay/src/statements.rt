// Statements.
ghost use Rattle.std.specs.Prelude.{◌≡◌, true, None, if◌then◌else◌};
ghost use Rattle.l2_runs.specs.Runs.{enliven, bury, bury_all, Go};
ghost use Rattle.l2_program.specs.Checked.{typed_tree, checked_tree, checked_trees, Block, Initialise};
ghost use Rattle.l2_program.specs.Types.{type_of};
ghost use Rattle.l2_meaning.specs.Meaning.{Next, value, act, act_all, declare, declared, while_turn, tree_loop};
ghost use Rattle.l2_meaning.specs.Lawful.{IsTyped};
ghost use Rattle.l2_replay.specs.Reach.{Does, turn_end, setting, layout, Fits, IsTypedIn, AreTypedIn};

use crate::answer::Fault;
use crate::expressions::{eval, fill, holds, put};
use crate::machine::Machine;
use l2_program::{Checked, Program, Typed};
use l2_runs::{CellType, Outcome, index_of};

/// The cells of an object.
fn cells_of(p: &Program, n: u32) -> &[CellType]
    ensures { result.now ≡ layout p.now n }
{
    match index_of(n) {
        Some(i) => match p.objects.as_slice().get(i) {
            Some(o) => o.cells.as_slice(),
            None => &[],
        },
        None => &[],
    }
}

/// An object's declaration is reached.
fn enliven(m: &mut Machine, p: &Program, n: u32)
    requires { Fits p.now m.old }
    ensures is { enliven n m.old ≡ Go tt m.new }
    ensures fits { Fits p.now m.new }
{
    m.enliven(n);
}

/// An object's block is left.
fn bury(m: &mut Machine, p: &Program, n: u32)
    requires { Fits p.now m.old }
    ensures is { bury n m.old ≡ Go tt m.new }
    ensures fits { Fits p.now m.new }
{
    m.bury(n);
}

/// A declaration without an initialiser.
#[tactic(auto, using(crate::proofs::Steps::steps))]
pub fn declare(m: &mut Machine, p: &Program, n: u32) -> Result<(), Fault>
    requires { Fits p.now m.old }
    ensures does { Does (λ u. tt) (declare (setting p.now) n) m.old m.new result }
    ensures fits { Fits p.now m.new }
{
    enliven(m, p, n);
    fill(m, p, n, cells_of(p, n))
}

/// A declaration with its initialiser.
#[tactic(auto, using(crate::proofs::Steps::steps))]
fn initialise(m: &mut Machine, p: &Program, n: u32, e: &Typed) -> Result<(), Fault>
    requires fits { Fits p.now m.old }
    requires typed { IsTyped (layout p.now) (typed_tree e.now) }
    requires same { layout p.now n ≡ type_of (typed_tree e.now) }
    ensures does { Does (λ u. Next) (act (setting p.now) true (Initialise n (typed_tree e.now))) m.old m.new result }
    ensures fits { Fits p.now m.new }
{
    enliven(m, p, n);
    let v = eval(m, p, e)?;
    put(m, p, n, e, v);
    Ok(())
}

/// The objects that are declared among these items die.
fn bury_declared(m: &mut Machine, p: &Program, all: &[Checked])
    requires { Fits p.now m.old }
    ensures is { bury_all (declared (checked_trees all.now)) m.old ≡ Go tt m.new }
    ensures fits { Fits p.now m.new }
{
    for s in all {
        match s {
            Checked::Declare(n) => bury(m, p, *n),
            Checked::Initialise(n, _) => bury(m, p, *n),
            Checked::Block(_) => {}
            Checked::Static(_) => {}
            Checked::Label(_) => {}
            Checked::Evaluate(_) => {}
            Checked::If(_, _) => {}
            Checked::IfElse(_, _, _) => {}
            Checked::While(_, _, _, _) => {}
            Checked::Return(_) => {}
        }
    }
}

/// What a statement does.
#[cycle(statements)]
#[tactic(auto, using(crate::proofs::Steps::steps))]
pub fn act(m: &mut Machine, p: &Program, s: &Checked) -> Result<(), Fault>
    requires fits { Fits p.now m.old }
    requires typed { IsTypedIn p.now (checked_tree s.now) }
    ensures does { Does (λ u. Next) (act (setting p.now) true (checked_tree s.now)) m.old m.new result }
    ensures fits { Fits p.now m.new }
{
    match s {
        Checked::Block(all) => block(m, p, all),
        Checked::Declare(n) => declare(m, p, *n),
        Checked::Static(_) => Ok(()),
        Checked::Initialise(n, e) => initialise(m, p, *n, e),
        Checked::Label(_) => Ok(()),
        Checked::Evaluate(e) => {
            eval(m, p, e)?;
            Ok(())
        }
        Checked::If(e, s) => {
            let v = eval(m, p, e)?;
            if holds(v) { act(m, p, s) } else { Ok(()) }
        }
        Checked::IfElse(e, s, t) => {
            let v = eval(m, p, e)?;
            if holds(v) { act(m, p, s) } else { act(m, p, t) }
        }
        Checked::While(l, _, e, s) => repeat(m, p, *l, e, s),
        Checked::Return(e) => {
            eval(m, p, e)?;
            Err(Fault::Over(Outcome::Ended))
        }
    }
}

/// What a block does.
#[cycle(statements)]
#[tactic(auto, using(crate::proofs::Steps::steps))]
fn block(m: &mut Machine, p: &Program, all: &[Checked]) -> Result<(), Fault>
    requires fits { Fits p.now m.old }
    requires typed { AreTypedIn p.now (checked_trees all.now) }
    ensures does { Does (λ u. Next) (act (setting p.now) true (Block (checked_trees all.now))) m.old m.new result }
    ensures fits { Fits p.now m.new }
{
    act_each(m, p, all)?;
    bury_declared(m, p, all);
    Ok(())
}

/// What statements do, one after another.
#[cycle(statements)]
#[tactic(auto, using(crate::proofs::Steps::steps))]
fn act_each(m: &mut Machine, p: &Program, all: &[Checked]) -> Result<(), Fault>
    requires fits { Fits p.now m.old }
    requires typed { AreTypedIn p.now (checked_trees all.now) }
    ensures does { Does (λ u. Next) (act_all (setting p.now) true None (checked_trees all.now)) m.old m.new result }
    ensures fits { Fits p.now m.new }
{
    for s in all {
        act(m, p, s)?;
    }
    Ok(())
}

/// What a `while` does: one turn an arrival at its head.
#[cycle(statements)]
#[tactic(auto, using(crate::proofs::Steps::steps))]
fn repeat(m: &mut Machine, p: &Program, l: u32, e: &Typed, s: &Checked) -> Result<(), Fault>
    requires fits { Fits p.now m.old }
    requires test { IsTyped (layout p.now) (typed_tree e.now) }
    requires body { IsTypedIn p.now (checked_tree s.now) }
    ensures does { Does (λ u. Next) (tree_loop (setting p.now) l (λ c. while_turn (value (setting p.now) c (typed_tree e.now)) (act (setting p.now) c (checked_tree s.now))) true) m.old m.new result }
    ensures fits { Fits p.now m.new }
{
    for turn in 0..m.turns() {
        m.arrive()?;
        if !one_turn(m, p, e, s)? {
            return Ok(());
        }
    }
    Err(Fault::Over(Outcome::OutOfTurns))
}

/// A turn of a `while`: whether the next arrival at its head follows.
#[cycle(statements)]
#[tactic(auto, using(crate::proofs::Steps::steps))]
fn one_turn(m: &mut Machine, p: &Program, e: &Typed, s: &Checked) -> Result<bool, Fault>
    requires fits { Fits p.now m.old }
    requires test { IsTyped (layout p.now) (typed_tree e.now) }
    requires body { IsTypedIn p.now (checked_tree s.now) }
    ensures does { Does turn_end (while_turn (value (setting p.now) true (typed_tree e.now)) (act (setting p.now) true (checked_tree s.now))) m.old m.new result }
    ensures fits { Fits p.now m.new }
{
    let v = eval(m, p, e)?;
    if !holds(v) {
        return Ok(false);
    }
    act(m, p, s)?;
    Ok(true)
}
