// Statements.
ghost use Rattle.std.specs.Prelude.{◌≡◌, ◌≢◌, ◌≤◌, ◌<◌, ◌+◌, [], ◌∷◌, ◌++◌, length, IfOk, IfErr};
ghost use Rattle.l2_code.specs.declared.action.Action.TheVariants.{End};
ghost use Rattle.l2_code.specs.Trees.{Block, Loop, none, more, items_of, join};
ghost use Rattle.l2_program.specs.Checked.{typed_tree, checked_tree, checked_trees};
ghost use Rattle.l2_program.specs.Checked as tree;
ghost use Rattle.l2_program.specs.Programs.{program_tree};
ghost use Rattle.l2_program.specs.Types.{type_of};
ghost use Rattle.l2_meaning.specs.Execution.{cells_of};
ghost use Rattle.l2_meaning.specs.Lawful.{IsInteger, IsTyped, IsTypedStatement, AreTyped, main_result};
ghost use Rattle.l2_meaning.specs.Meaning.{declared};
ghost use Rattle.l2_lower.specs.Emitting.{cell, only, expression};
ghost use Rattle.l2_lower.specs.Statements.{filled, declaration, initialised, deads, first_side, both_sides, guarded, statement, statements};
ghost use Rattle.l2_lower.specs.Output.{output, Emits, Anything};
ghost use Rattle.l2_lower.specs.declared.error.LowerError.TheVariants.{NoMemory};
ghost use Rattle.l2_meaning.specs.Scopes.{behind};
ghost use Rattle.l2_lower.specs.Statements.{HaveFewCells};

use crate::emitter::{self, Counts};
use crate::error::LowerError;
use crate::expressions::{condition, expression};
use l2_code::{Item, Operand, emit};
use l2_program::{Checked, Program, Typed};
use l2_runs::{CellType, CellValue, index_of};
use std::alloc::Global;

/// The address of a cell of an object.
fn cell(object: u32, offset: u32) -> Operand
    ensures { result ≡ cell object offset }
{
    Operand::Constant(CellValue::At { object, offset })
}

/// The cells of an object.
fn cells_of(p: &Program, n: u32) -> &[CellType]
    ensures { result.now ≡ cells_of (program_tree p.now) n }
{
    match index_of(n) {
        Some(i) => match p.objects.as_slice().get(i) {
            Some(o) => o.cells.as_slice(),
            None => &[],
        },
        None => &[],
    }
}

/// An integer cell takes a choice, a pointer cell becomes Invalid.
#[tactic(auto, using(crate::proofs::Outputs::outputs))]
fn fill_cell(
    alloc: Global,
    out: &mut Vec<Item>,
    at: &mut Counts,
    o: u32,
    f: u32,
    ty: CellType,
) -> Result<(), LowerError>
    ensures { Emits (filled at.old.next o f (ty ∷ [])).nodes (filled at.old.next o f (ty ∷ [])).next Anything (output out.old.items at.old) (output out.new.items at.new) result }
{
    let value = match ty {
        CellType::Integer(of) => emitter::choice(alloc, out, at, of)?,
        CellType::Pointer => Operand::Constant(CellValue::Invalid),
    };
    emitter::write(alloc, out, at, ty, cell(o, f), value)
}

/// Each cell of an object without an initialiser.
#[tactic(auto, using(crate::proofs::Outputs::loops))]
fn fill(
    alloc: Global,
    out: &mut Vec<Item>,
    at: &mut Counts,
    o: u32,
    types: &[CellType],
) -> Result<(), LowerError>
    requires { length types.now ≤ 65536 }
    ensures { Emits (filled at.old.next o 0 types.now).nodes (filled at.old.next o 0 types.now).next Anything (output out.old.items at.old) (output out.new.items at.new) result }
{
    for i in 0..types.len() {
        fill_cell(alloc, out, at, o, i as u32, types[i])?;
    }
    Ok(())
}

/// A declaration without an initialiser.
#[tactic(auto, using(crate::proofs::Outputs::outputs))]
pub fn declare(
    alloc: Global,
    p: &Program,
    out: &mut Vec<Item>,
    at: &mut Counts,
    o: u32,
) -> Result<(), LowerError>
    requires { HaveFewCells (program_tree p.now) }
    ensures { Emits (declaration (cells_of (program_tree p.now)) at.old.next o).nodes (declaration (cells_of (program_tree p.now)) at.old.next o).next Anything (output out.old.items at.old) (output out.new.items at.new) result }
{
    emitter::live(alloc, out, at, o)?;
    fill(alloc, out, at, o, cells_of(p, o))
}

/// These objects die.
#[tactic(auto, using(crate::proofs::Outputs::loops))]
pub fn bury(
    alloc: Global,
    out: &mut Vec<Item>,
    at: &mut Counts,
    objects: &[u32],
) -> Result<(), LowerError>
    ensures { Emits (deads objects.now) at.old.next Anything (output out.old.items at.old) (output out.new.items at.new) result }
{
    for o in objects {
        emitter::dead(alloc, out, at, *o)?;
    }
    Ok(())
}

/// The objects that are declared among these items die.
#[tactic(auto, using(crate::proofs::Outputs::loops))]
fn bury_declared(
    alloc: Global,
    out: &mut Vec<Item>,
    at: &mut Counts,
    all: &[Checked],
) -> Result<(), LowerError>
    ensures { Emits (deads (declared (checked_trees all.now))) at.old.next Anything (output out.old.items at.old) (output out.new.items at.new) result }
{
    for s in all {
        bury_one(alloc, out, at, s)?;
    }
    Ok(())
}

/// The object that an item declares dies.
#[tactic(auto, using(crate::proofs::Outputs::outputs))]
fn bury_one(
    alloc: Global,
    out: &mut Vec<Item>,
    at: &mut Counts,
    s: &Checked,
) -> Result<(), LowerError>
    ensures { Emits (deads (declared (tree.more (checked_tree s.now) tree.none))) at.old.next Anything (output out.old.items at.old) (output out.new.items at.new) result }
{
    match s {
        Checked::Declare(n) => emitter::dead(alloc, out, at, *n),
        Checked::Initialise(n, _) => emitter::dead(alloc, out, at, *n),
        Checked::Block(_) => Ok(()),
        Checked::Static(_) => Ok(()),
        Checked::Label(_) => Ok(()),
        Checked::Evaluate(_) => Ok(()),
        Checked::If(_, _) => Ok(()),
        Checked::IfElse(_, _, _) => Ok(()),
        Checked::While(_, _, _, _) => Ok(()),
        Checked::Return(_) => Ok(()),
    }
}

/// The objects in scope behind an item.
fn go_behind(scope: &mut Vec<u32>, s: &Checked) -> Result<(), LowerError>
    ensures ok { IfOk result (λ u. scope.new.items ≡ behind scope.old.items (checked_tree s.now)) }
    ensures err { IfErr result (λ e. e ≡ NoMemory) }
{
    match s {
        Checked::Declare(n) => scope.push(*n)?,
        Checked::Initialise(n, _) => scope.push(*n)?,
        Checked::Block(_) => {}
        Checked::Static(_) => {}
        Checked::Label(_) => {}
        Checked::Evaluate(_) => {}
        Checked::If(_, _) => {}
        Checked::IfElse(_, _, _) => {}
        Checked::While(_, _, _, _) => {}
        Checked::Return(_) => {}
    }
    Ok(())
}

/// Items that a jump may leave, as one.
#[tactic(auto, using(crate::proofs::Outputs::outputs))]
fn push_block(out: &mut Vec<Item>, items: Vec<Item>) -> Result<(), LowerError>
    ensures ok { IfOk result (λ u. items_of out.new.items ≡ join (items_of out.old.items) (more (Block (items_of items.items)) none)) }
    ensures err { IfErr result (λ e. e ≡ NoMemory) }
{
    out.push(emit::block(items))?;
    Ok(())
}

/// A loop, of which these items are a turn, with the jumps that leave it.
#[tactic(auto, using(crate::proofs::Outputs::outputs))]
fn loop_of(alloc: Global, at: &mut Counts, l: u32, turn: Vec<Item>) -> Result<Vec<Item>, LowerError>
    ensures ok { IfOk result (λ v. (items_of v.items ≡ more (Loop l (items_of turn.items)) none) × (at.new ≡ record at.old { count = at.old.count + 2 })) }
    ensures err { IfErr result (λ e. e ≢ NoMemory → 65536 < at.old.count + 2) }
{
    at.rise()?;
    at.rise()?;
    let mut items = Vec::new(alloc);
    items.push(emit::turn(l, turn))?;
    Ok(items)
}

/// A declaration with its initialiser.
#[tactic(auto, using(crate::proofs::Outputs::outputs))]
fn initialise(
    alloc: Global,
    p: &Program,
    out: &mut Vec<Item>,
    at: &mut Counts,
    o: u32,
    e: &Typed,
) -> Result<(), LowerError>
    requires typed { IsTyped (cells_of (program_tree p.now)) (typed_tree e.now) }
    requires same { cells_of (program_tree p.now) o ≡ type_of (typed_tree e.now) }
    ensures { Emits (statement (cells_of (program_tree p.now)) [] at.old.next (tree.Initialise o (typed_tree e.now))).nodes (statement (cells_of (program_tree p.now)) [] at.old.next (tree.Initialise o (typed_tree e.now))).next Anything (output out.old.items at.old) (output out.new.items at.new) result }
{
    emitter::live(alloc, out, at, o)?;
    let a = expression(alloc, p, out, at, e)?;
    take(alloc, p, out, at, o, a)
}

/// The cell of a scalar object takes an operand.
#[tactic(auto, using(crate::proofs::Outputs::outputs))]
fn take(
    alloc: Global,
    p: &Program,
    out: &mut Vec<Item>,
    at: &mut Counts,
    o: u32,
    a: Operand,
) -> Result<(), LowerError>
    ensures { Emits (initialised o (cells_of (program_tree p.now) o) a) at.old.next Anything (output out.old.items at.old) (output out.new.items at.new) result }
{
    match cells_of(p, o).get(0) {
        Some(ty) => emitter::write(alloc, out, at, *ty, cell(o, 0), a),
        None => Ok(()),
    }
}

/// What a statement becomes, where these objects are in scope.
#[cycle(statements)]
#[tactic(auto, using(crate::proofs::Outputs::statements))]
pub fn statement(
    alloc: Global,
    p: &Program,
    out: &mut Vec<Item>,
    at: &mut Counts,
    scope: &mut Vec<u32>,
    s: &Checked,
) -> Result<(), LowerError>
    requires few { HaveFewCells (program_tree p.now) }
    requires typed { IsTypedStatement (cells_of (program_tree p.now)) main_result (checked_tree s.now) }
    ensures emits { Emits (statement (cells_of (program_tree p.now)) scope.old.items at.old.next (checked_tree s.now)).nodes (statement (cells_of (program_tree p.now)) scope.old.items at.old.next (checked_tree s.now)).next Anything (output out.old.items at.old) (output out.new.items at.new) result }
    ensures scope { IfOk result (λ u. scope.new.items ≡ scope.old.items) }
{
    match s {
        Checked::Block(all) => block(alloc, p, out, at, scope, all),
        Checked::Declare(n) => declare(alloc, p, out, at, *n),
        Checked::Static(_) => Ok(()),
        Checked::Initialise(n, e) => initialise(alloc, p, out, at, *n, e),
        Checked::Label(_) => Ok(()),
        Checked::Evaluate(e) => {
            expression(alloc, p, out, at, e)?;
            Ok(())
        }
        Checked::If(e, s) => one_side(alloc, p, out, at, scope, e, s),
        Checked::IfElse(e, s, t) => two_sides(alloc, p, out, at, scope, e, s, t),
        Checked::While(l, _, e, s) => repeat(alloc, p, out, at, scope, *l, e, s),
        Checked::Return(e) => {
            expression(alloc, p, out, at, e)?;
            leave(alloc, out, at, scope)
        }
    }
}

/// `return` of `main`: what is in scope dies, and the execution ends.
#[tactic(auto, using(crate::proofs::Outputs::outputs))]
pub fn leave(
    alloc: Global,
    out: &mut Vec<Item>,
    at: &mut Counts,
    scope: &[u32],
) -> Result<(), LowerError>
    ensures { Emits (join (deads scope.now) (only End)) at.old.next Anything (output out.old.items at.old) (output out.new.items at.new) result }
{
    bury(alloc, out, at, scope)?;
    emitter::end(alloc, out, at)
}

/// What a block becomes.
#[cycle(statements)]
#[tactic(auto, using(crate::proofs::Outputs::statements))]
fn block(
    alloc: Global,
    p: &Program,
    out: &mut Vec<Item>,
    at: &mut Counts,
    scope: &mut Vec<u32>,
    all: &[Checked],
) -> Result<(), LowerError>
    requires few { HaveFewCells (program_tree p.now) }
    requires typed { AreTyped (cells_of (program_tree p.now)) main_result (checked_trees all.now) }
    ensures emits { Emits (statement (cells_of (program_tree p.now)) scope.old.items at.old.next (tree.Block (checked_trees all.now))).nodes (statement (cells_of (program_tree p.now)) scope.old.items at.old.next (tree.Block (checked_trees all.now))).next Anything (output out.old.items at.old) (output out.new.items at.new) result }
    ensures scope { IfOk result (λ u. scope.new.items ≡ scope.old.items) }
{
    let count = scope.len();
    items(alloc, p, out, at, scope, all)?;
    scope.truncate(count);
    bury_declared(alloc, out, at, all)
}

/// What statements become, one after another; the objects that they declare are in scope behind them.
#[cycle(statements)]
#[tactic(auto, using(crate::proofs::Outputs::statements))]
fn items(
    alloc: Global,
    p: &Program,
    out: &mut Vec<Item>,
    at: &mut Counts,
    scope: &mut Vec<u32>,
    all: &[Checked],
) -> Result<(), LowerError>
    requires few { HaveFewCells (program_tree p.now) }
    requires typed { AreTyped (cells_of (program_tree p.now)) main_result (checked_trees all.now) }
    ensures emits { Emits (statements (cells_of (program_tree p.now)) scope.old.items at.old.next (checked_trees all.now)).nodes (statements (cells_of (program_tree p.now)) scope.old.items at.old.next (checked_trees all.now)).next Anything (output out.old.items at.old) (output out.new.items at.new) result }
    ensures scope { IfOk result (λ u. scope.new.items ≡ scope.old.items ++ declared (checked_trees all.now)) }
{
    for s in all {
        statement(alloc, p, out, at, scope, s)?;
        go_behind(scope, s)?;
    }
    Ok(())
}

/// What a condition becomes with the statement behind it, past which the innermost block is left.
#[cycle(statements)]
#[tactic(auto, using(crate::proofs::Outputs::statements))]
fn guarded(
    alloc: Global,
    p: &Program,
    out: &mut Vec<Item>,
    at: &mut Counts,
    scope: &mut Vec<u32>,
    e: &Typed,
    s: &Checked,
) -> Result<(), LowerError>
    requires few { HaveFewCells (program_tree p.now) }
    requires test { IsTyped (cells_of (program_tree p.now)) (typed_tree e.now) }
    requires integer { IsInteger (type_of (typed_tree e.now)) }
    requires body { IsTypedStatement (cells_of (program_tree p.now)) main_result (checked_tree s.now) }
    ensures emits { Emits (guarded (cells_of (program_tree p.now)) scope.old.items at.old.next (typed_tree e.now) (checked_tree s.now)).nodes (guarded (cells_of (program_tree p.now)) scope.old.items at.old.next (typed_tree e.now) (checked_tree s.now)).next Anything (output out.old.items at.old) (output out.new.items at.new) result }
    ensures scope { IfOk result (λ u. scope.new.items ≡ scope.old.items) }
{
    let a = condition(alloc, p, out, at, e)?;
    emitter::unless(alloc, out, at, a)?;
    statement(alloc, p, out, at, scope, s)
}

/// What an `if` becomes.
#[cycle(statements)]
#[tactic(auto, using(crate::proofs::Outputs::statements))]
fn one_side(
    alloc: Global,
    p: &Program,
    out: &mut Vec<Item>,
    at: &mut Counts,
    scope: &mut Vec<u32>,
    e: &Typed,
    s: &Checked,
) -> Result<(), LowerError>
    requires few { HaveFewCells (program_tree p.now) }
    requires test { IsTyped (cells_of (program_tree p.now)) (typed_tree e.now) }
    requires integer { IsInteger (type_of (typed_tree e.now)) }
    requires body { IsTypedStatement (cells_of (program_tree p.now)) main_result (checked_tree s.now) }
    ensures emits { Emits (statement (cells_of (program_tree p.now)) scope.old.items at.old.next (tree.If (typed_tree e.now) (checked_tree s.now))).nodes (statement (cells_of (program_tree p.now)) scope.old.items at.old.next (tree.If (typed_tree e.now) (checked_tree s.now))).next Anything (output out.old.items at.old) (output out.new.items at.new) result }
    ensures scope { IfOk result (λ u. scope.new.items ≡ scope.old.items) }
{
    let mut inner = Vec::new(alloc);
    guarded(alloc, p, &mut inner, at, scope, e, s)?;
    push_block(out, inner)
}

/// What an `if` with an `else` becomes.
#[cycle(statements)]
#[tactic(auto, using(crate::proofs::Outputs::statements))]
fn two_sides(
    alloc: Global,
    p: &Program,
    out: &mut Vec<Item>,
    at: &mut Counts,
    scope: &mut Vec<u32>,
    e: &Typed,
    s: &Checked,
    t: &Checked,
) -> Result<(), LowerError>
    requires few { HaveFewCells (program_tree p.now) }
    requires test { IsTyped (cells_of (program_tree p.now)) (typed_tree e.now) }
    requires integer { IsInteger (type_of (typed_tree e.now)) }
    requires first { IsTypedStatement (cells_of (program_tree p.now)) main_result (checked_tree s.now) }
    requires second { IsTypedStatement (cells_of (program_tree p.now)) main_result (checked_tree t.now) }
    ensures emits { Emits (statement (cells_of (program_tree p.now)) scope.old.items at.old.next (tree.IfElse (typed_tree e.now) (checked_tree s.now) (checked_tree t.now))).nodes (statement (cells_of (program_tree p.now)) scope.old.items at.old.next (tree.IfElse (typed_tree e.now) (checked_tree s.now) (checked_tree t.now))).next Anything (output out.old.items at.old) (output out.new.items at.new) result }
    ensures scope { IfOk result (λ u. scope.new.items ≡ scope.old.items) }
{
    let mut both = Vec::new(alloc);
    both_sides(alloc, p, &mut both, at, scope, e, s, t)?;
    push_block(out, both)
}

/// The first side of a choice, and the second.
#[cycle(statements)]
#[tactic(auto, using(crate::proofs::Outputs::statements))]
fn both_sides(
    alloc: Global,
    p: &Program,
    out: &mut Vec<Item>,
    at: &mut Counts,
    scope: &mut Vec<u32>,
    e: &Typed,
    s: &Checked,
    t: &Checked,
) -> Result<(), LowerError>
    requires few { HaveFewCells (program_tree p.now) }
    requires test { IsTyped (cells_of (program_tree p.now)) (typed_tree e.now) }
    requires integer { IsInteger (type_of (typed_tree e.now)) }
    requires first { IsTypedStatement (cells_of (program_tree p.now)) main_result (checked_tree s.now) }
    requires second { IsTypedStatement (cells_of (program_tree p.now)) main_result (checked_tree t.now) }
    ensures emits { Emits (both_sides (cells_of (program_tree p.now)) scope.old.items at.old.next (typed_tree e.now) (checked_tree s.now) (checked_tree t.now)).nodes (both_sides (cells_of (program_tree p.now)) scope.old.items at.old.next (typed_tree e.now) (checked_tree s.now) (checked_tree t.now)).next Anything (output out.old.items at.old) (output out.new.items at.new) result }
    ensures scope { IfOk result (λ u. scope.new.items ≡ scope.old.items) }
{
    first_side(alloc, p, out, at, scope, e, s)?;
    statement(alloc, p, out, at, scope, t)
}

/// The first side of a choice, which jumps over the second.
#[cycle(statements)]
#[tactic(auto, using(crate::proofs::Outputs::statements))]
fn first_side(
    alloc: Global,
    p: &Program,
    out: &mut Vec<Item>,
    at: &mut Counts,
    scope: &mut Vec<u32>,
    e: &Typed,
    s: &Checked,
) -> Result<(), LowerError>
    requires few { HaveFewCells (program_tree p.now) }
    requires test { IsTyped (cells_of (program_tree p.now)) (typed_tree e.now) }
    requires integer { IsInteger (type_of (typed_tree e.now)) }
    requires body { IsTypedStatement (cells_of (program_tree p.now)) main_result (checked_tree s.now) }
    ensures emits { Emits (first_side (guarded (cells_of (program_tree p.now)) scope.old.items at.old.next (typed_tree e.now) (checked_tree s.now))).nodes (first_side (guarded (cells_of (program_tree p.now)) scope.old.items at.old.next (typed_tree e.now) (checked_tree s.now))).next Anything (output out.old.items at.old) (output out.new.items at.new) result }
    ensures scope { IfOk result (λ u. scope.new.items ≡ scope.old.items) }
{
    let mut first = Vec::new(alloc);
    guarded(alloc, p, &mut first, at, scope, e, s)?;
    emitter::goto(alloc, &mut first, at)?;
    push_block(out, first)
}

/// What a `while` becomes.
#[cycle(statements)]
#[tactic(auto, using(crate::proofs::Outputs::statements))]
fn repeat(
    alloc: Global,
    p: &Program,
    out: &mut Vec<Item>,
    at: &mut Counts,
    scope: &mut Vec<u32>,
    l: u32,
    e: &Typed,
    s: &Checked,
) -> Result<(), LowerError>
    requires few { HaveFewCells (program_tree p.now) }
    requires test { IsTyped (cells_of (program_tree p.now)) (typed_tree e.now) }
    requires integer { IsInteger (type_of (typed_tree e.now)) }
    requires body { IsTypedStatement (cells_of (program_tree p.now)) main_result (checked_tree s.now) }
    ensures emits { Emits (statement (cells_of (program_tree p.now)) scope.old.items at.old.next (tree.While l [] (typed_tree e.now) (checked_tree s.now))).nodes (statement (cells_of (program_tree p.now)) scope.old.items at.old.next (tree.While l [] (typed_tree e.now) (checked_tree s.now))).next Anything (output out.old.items at.old) (output out.new.items at.new) result }
    ensures scope { IfOk result (λ u. scope.new.items ≡ scope.old.items) }
{
    let mut turn = Vec::new(alloc);
    guarded(alloc, p, &mut turn, at, scope, e, s)?;
    let inner = loop_of(alloc, at, l, turn)?;
    push_block(out, inner)
}
