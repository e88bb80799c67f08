//! Makers of code's items, one for each instruction.
ghost use Rattle.std.specs.Prelude.{◌≡◌, IfOk};
ghost use Rattle.l2_code.specs.declared.action.Action.TheVariants.{Compute, Read, Write, Choice, Assume, Check, Unless, Goto, Live, Dead, End};
ghost use Rattle.l2_code.specs.declared.action.Computation.TheVariants as computation;
ghost use Rattle.l2_code.specs.Trees.{Do, Block, Loop, tree_of, items_of};

use crate::action::{Action, Computation, Operand, Operator, PointerOperator, Test};
use crate::code::Item;
use l2_bits::Ty;
use l2_runs::CellType;
use std::alloc::{AllocError, Global};

fn instruction(alloc: Global, action: Action) -> Result<Item, AllocError>
    ensures { IfOk result (λ x. tree_of x ≡ Do action) }
{
    let action = Box::new(alloc, action)?;
    Ok(Item::Do(action))
}

/// `tN = OP TYPE A B`.
pub fn operator(
    alloc: Global,
    temp: u32,
    operator: Operator,
    ty: Ty,
    left: Operand,
    right: Operand,
) -> Result<Item, AllocError>
    ensures { IfOk result (λ x. tree_of x ≡ Do (Compute temp (computation.Numbers operator ty left right))) }
{
    instruction(
        alloc,
        Action::Compute(temp, Computation::Numbers(operator, ty, left, right)),
    )
}

/// `tN = conv TYPE A`.
pub fn convert(alloc: Global, temp: u32, ty: Ty, from: Operand) -> Result<Item, AllocError>
    ensures { IfOk result (λ x. tree_of x ≡ Do (Compute temp (computation.Convert ty from))) }
{
    instruction(alloc, Action::Compute(temp, Computation::Convert(ty, from)))
}

/// `tN = padd S A B`.
pub fn moved(
    alloc: Global,
    temp: u32,
    cells: i64,
    pointer: Operand,
    by: Operand,
) -> Result<Item, AllocError>
    ensures { IfOk result (λ x. tree_of x ≡ Do (Compute temp (computation.Move cells pointer by))) }
{
    instruction(
        alloc,
        Action::Compute(temp, Computation::Move(cells, pointer, by)),
    )
}

/// `tN = pdiff A B`, and the comparisons of pointers.
pub fn pointers(
    alloc: Global,
    temp: u32,
    operator: PointerOperator,
    left: Operand,
    right: Operand,
) -> Result<Item, AllocError>
    ensures { IfOk result (λ x. tree_of x ≡ Do (Compute temp (computation.Pointers operator left right))) }
{
    instruction(
        alloc,
        Action::Compute(temp, Computation::Pointers(operator, left, right)),
    )
}

/// `tN = ok..`.
pub fn passes(alloc: Global, temp: u32, test: Test) -> Result<Item, AllocError>
    ensures { IfOk result (λ x. tree_of x ≡ Do (Compute temp (computation.Passes test))) }
{
    instruction(alloc, Action::Compute(temp, Computation::Passes(test)))
}

/// `tN = read TYPE A`.
pub fn read(alloc: Global, temp: u32, ty: CellType, at: Operand) -> Result<Item, AllocError>
    ensures { IfOk result (λ x. tree_of x ≡ Do (Read temp ty at)) }
{
    instruction(alloc, Action::Read(temp, ty, at))
}

/// `write TYPE A B`.
pub fn write(alloc: Global, ty: CellType, at: Operand, value: Operand) -> Result<Item, AllocError>
    ensures { IfOk result (λ x. tree_of x ≡ Do (Write ty at value)) }
{
    instruction(alloc, Action::Write(ty, at, value))
}

/// `tN = choice TYPE`.
pub fn choice(alloc: Global, temp: u32, ty: Ty) -> Result<Item, AllocError>
    ensures { IfOk result (λ x. tree_of x ≡ Do (Choice temp ty)) }
{
    instruction(alloc, Action::Choice(temp, ty))
}

/// `assume A`.
pub fn assume(alloc: Global, holds: Operand) -> Result<Item, AllocError>
    ensures { IfOk result (λ x. tree_of x ≡ Do (Assume holds)) }
{
    instruction(alloc, Action::Assume(holds))
}

/// `check C A`.
pub fn check(alloc: Global, check: u32, holds: Operand) -> Result<Item, AllocError>
    ensures { IfOk result (λ x. tree_of x ≡ Do (Check check holds)) }
{
    instruction(alloc, Action::Check(check, holds))
}

/// `unless A L`, where so many blocks lie between it and the one whose end is L.
pub fn unless(alloc: Global, holds: Operand, blocks: u32) -> Result<Item, AllocError>
    ensures { IfOk result (λ x. tree_of x ≡ Do (Unless holds blocks)) }
{
    instruction(alloc, Action::Unless(holds, blocks))
}

/// `goto L`.
pub fn goto(alloc: Global, blocks: u32) -> Result<Item, AllocError>
    ensures { IfOk result (λ x. tree_of x ≡ Do (Goto blocks)) }
{
    instruction(alloc, Action::Goto(blocks))
}

/// `live O`.
pub fn live(alloc: Global, object: u32) -> Result<Item, AllocError>
    ensures { IfOk result (λ x. tree_of x ≡ Do (Live object)) }
{
    instruction(alloc, Action::Live(object))
}

/// `dead O`.
pub fn dead(alloc: Global, object: u32) -> Result<Item, AllocError>
    ensures { IfOk result (λ x. tree_of x ≡ Do (Dead object)) }
{
    instruction(alloc, Action::Dead(object))
}

/// `end`.
pub fn end(alloc: Global) -> Result<Item, AllocError>
    ensures { IfOk result (λ x. tree_of x ≡ Do End) }
{
    instruction(alloc, Action::End)
}

/// Items that a jump may leave.
#[tactic(auto, using(crate::proofs::Items::items))]
pub fn block(items: Vec<Item>) -> Item
    ensures { tree_of result ≡ Block (items_of items.items) }
{
    Item::Block(items)
}

/// A loop, of which these items are a turn.
#[tactic(auto, using(crate::proofs::Items::items))]
pub fn turn(number: u32, items: Vec<Item>) -> Item
    ensures { tree_of result ≡ Loop number (items_of items.items) }
{
    Item::Loop(number, items)
}
