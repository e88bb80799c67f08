// What is emitted.
ghost use Rattle.std.specs.Prelude.{◌≡◌, ◌≤◌, ◌-◌, suc, IfOk, IfErr};
ghost use Rattle.l2_code.specs.declared.action.Operand.TheVariants.{Temp};
ghost use Rattle.l2_code.specs.declared.action.Action.TheVariants as action;
ghost use Rattle.l2_code.specs.Trees.{none, more, tree_of};
ghost use Rattle.l2_code.specs.Sizes.{node_count};
ghost use Rattle.l2_code.specs.declared.action.Computation.TheVariants as computation;
ghost use Rattle.l2_code.specs.declared.action.Test.TheVariants as test;
ghost use Rattle.l2_lower.specs.Emitting.{only, checked};
ghost use Rattle.l2_lower.specs.Output.{output, Emits, Anything};

use crate::error::LowerError;
use l2_bits::{Op, Ty};
use l2_code::{Item, Operand, Operator, Test, emit};
use l2_runs::CellType;
use std::alloc::Global;
use std::marker::Model;

/// How many instructions code may have.
const MOST: u32 = 65536;

/// The number of the temporary that comes next, and how many instructions there are in all.
#[derive(Drop)]
pub struct Counts {
    next: u32,
    count: u32,
}

impl Model for Counts {
    ghost use Rattle.std.specs.Prelude.{◌≤◌, ◌+◌};
    ghost use Rattle.l2_lower.specs.Output as output;

    ghost Value = { output.Counts };

    ghost view = { λ m. record { next = m.next; count = m.count } };

    ghost invariant = { λ m. (m.next ≤ m.count + 1) × (m.count ≤ 65536) };
}

impl Counts {
    pub fn new() -> Counts
        ensures { result ≡ record { next = 1; count = 0 } }
    {
        Counts { next: 1, count: 0 }
    }

    /// How many temporaries there are, where there were none at first.
    pub fn temps(&self) -> u32
        ensures is { result ≡ self.now.next - 1 }
        ensures few { self.now.count ≤ 65536 }
    {
        self.next.saturating_sub(1)
    }

    /// One instruction more.
    pub fn rise(&mut self) -> Result<(), LowerError>
        ensures ok { IfOk result (λ u. self.new ≡ record self.old { count = suc self.old.count }) }
        ensures err { IfErr result (λ e. 65536 ≤ self.old.count) }
    {
        if self.count < MOST {
            self.count += 1;
            Ok(())
        } else {
            Err(LowerError::TooLarge)
        }
    }

    /// One instruction more, whose result is the next temporary.
    fn take(&mut self) -> Result<u32, LowerError>
        ensures ok { IfOk result (λ n. (n ≡ self.old.next) × (self.new ≡ record { next = suc self.old.next; count = suc self.old.count })) }
        ensures err { IfErr result (λ e. 65536 ≤ self.old.count) }
    {
        if self.count < MOST {
            let temp = self.next;
            self.count += 1;
            self.next = temp + 1;
            Ok(temp)
        } else {
            Err(LowerError::TooLarge)
        }
    }
}

/// An instruction more.
#[tactic(auto, using(crate::proofs::Outputs::outputs))]
fn push(out: &mut Vec<Item>, at: &mut Counts, item: Item) -> Result<(), LowerError>
    requires { node_count (tree_of item) ≡ 1 }
    ensures { Emits (more (tree_of item) none) at.old.next Anything (output out.old.items at.old) (output out.new.items at.new) result }
{
    at.rise()?;
    out.push(item)?;
    Ok(())
}

/// `write TYPE A B`.
#[tactic(auto, using(crate::proofs::Outputs::outputs))]
pub fn write(
    alloc: Global,
    out: &mut Vec<Item>,
    at: &mut Counts,
    ty: CellType,
    to: Operand,
    value: Operand,
) -> Result<(), LowerError>
    ensures { Emits (only (action.Write ty to value)) at.old.next Anything (output out.old.items at.old) (output out.new.items at.new) result }
{
    let item = emit::write(alloc, ty, to, value)?;
    push(out, at, item)
}

/// `tN = read TYPE A`.
#[tactic(auto, using(crate::proofs::Outputs::outputs))]
pub fn read(
    alloc: Global,
    out: &mut Vec<Item>,
    at: &mut Counts,
    ty: CellType,
    from: Operand,
) -> Result<Operand, LowerError>
    ensures { Emits (only (action.Read at.old.next ty from)) (suc at.old.next) (λ a. a ≡ Temp at.old.next) (output out.old.items at.old) (output out.new.items at.new) result }
{
    let temp = at.take()?;
    let item = emit::read(alloc, temp, ty, from)?;
    out.push(item)?;
    Ok(Operand::Temp(temp))
}

/// `tN = OP TYPE A B`.
#[tactic(auto, using(crate::proofs::Outputs::outputs))]
pub fn operator(
    alloc: Global,
    out: &mut Vec<Item>,
    at: &mut Counts,
    op: Operator,
    ty: Ty,
    a: Operand,
    b: Operand,
) -> Result<Operand, LowerError>
    ensures { Emits (only (action.Compute at.old.next (computation.Numbers op ty a b))) (suc at.old.next) (λ d. d ≡ Temp at.old.next) (output out.old.items at.old) (output out.new.items at.new) result }
{
    let temp = at.take()?;
    let item = emit::operator(alloc, temp, op, ty, a, b)?;
    out.push(item)?;
    Ok(Operand::Temp(temp))
}

/// `tN = conv TYPE A`.
#[tactic(auto, using(crate::proofs::Outputs::outputs))]
pub fn convert(
    alloc: Global,
    out: &mut Vec<Item>,
    at: &mut Counts,
    ty: Ty,
    a: Operand,
) -> Result<Operand, LowerError>
    ensures { Emits (only (action.Compute at.old.next (computation.Convert ty a))) (suc at.old.next) (λ d. d ≡ Temp at.old.next) (output out.old.items at.old) (output out.new.items at.new) result }
{
    let temp = at.take()?;
    let item = emit::convert(alloc, temp, ty, a)?;
    out.push(item)?;
    Ok(Operand::Temp(temp))
}

/// `tN = okover OP TYPE A B`.
#[tactic(auto, using(crate::proofs::Outputs::outputs))]
pub fn overflow(
    alloc: Global,
    out: &mut Vec<Item>,
    at: &mut Counts,
    op: Op,
    ty: Ty,
    a: Operand,
    b: Operand,
) -> Result<Operand, LowerError>
    ensures { Emits (only (action.Compute at.old.next (computation.Passes (test.Overflow op ty a b)))) (suc at.old.next) (λ d. d ≡ Temp at.old.next) (output out.old.items at.old) (output out.new.items at.new) result }
{
    let temp = at.take()?;
    let item = emit::passes(alloc, temp, Test::Overflow(op, ty, a, b))?;
    out.push(item)?;
    Ok(Operand::Temp(temp))
}

/// `tN = choice TYPE`.
#[tactic(auto, using(crate::proofs::Outputs::outputs))]
pub fn choice(
    alloc: Global,
    out: &mut Vec<Item>,
    at: &mut Counts,
    ty: Ty,
) -> Result<Operand, LowerError>
    ensures { Emits (only (action.Choice at.old.next ty)) (suc at.old.next) (λ d. d ≡ Temp at.old.next) (output out.old.items at.old) (output out.new.items at.new) result }
{
    let temp = at.take()?;
    let item = emit::choice(alloc, temp, ty)?;
    out.push(item)?;
    Ok(Operand::Temp(temp))
}

/// `check C A`, where there is one.
#[tactic(auto, using(crate::proofs::Outputs::outputs))]
pub fn check(
    alloc: Global,
    out: &mut Vec<Item>,
    at: &mut Counts,
    check: u32,
    a: Operand,
) -> Result<(), LowerError>
    ensures { Emits (checked check a) at.old.next Anything (output out.old.items at.old) (output out.new.items at.new) result }
{
    if check == 0 {
        return Ok(());
    }
    let item = emit::check(alloc, check, a)?;
    push(out, at, item)
}

/// `unless A L`, which leaves the innermost block.
#[tactic(auto, using(crate::proofs::Outputs::outputs))]
pub fn unless(
    alloc: Global,
    out: &mut Vec<Item>,
    at: &mut Counts,
    a: Operand,
) -> Result<(), LowerError>
    ensures { Emits (only (action.Unless a 0)) at.old.next Anything (output out.old.items at.old) (output out.new.items at.new) result }
{
    let item = emit::unless(alloc, a, 0)?;
    push(out, at, item)
}

/// `goto L`, which leaves the block round the innermost one.
#[tactic(auto, using(crate::proofs::Outputs::outputs))]
pub fn goto(alloc: Global, out: &mut Vec<Item>, at: &mut Counts) -> Result<(), LowerError>
    ensures { Emits (only (action.Goto 1)) at.old.next Anything (output out.old.items at.old) (output out.new.items at.new) result }
{
    let item = emit::goto(alloc, 1)?;
    push(out, at, item)
}

/// `live O`.
#[tactic(auto, using(crate::proofs::Outputs::outputs))]
pub fn live(
    alloc: Global,
    out: &mut Vec<Item>,
    at: &mut Counts,
    object: u32,
) -> Result<(), LowerError>
    ensures { Emits (only (action.Live object)) at.old.next Anything (output out.old.items at.old) (output out.new.items at.new) result }
{
    let item = emit::live(alloc, object)?;
    push(out, at, item)
}

/// `dead O`.
#[tactic(auto, using(crate::proofs::Outputs::outputs))]
pub fn dead(
    alloc: Global,
    out: &mut Vec<Item>,
    at: &mut Counts,
    object: u32,
) -> Result<(), LowerError>
    ensures { Emits (only (action.Dead object)) at.old.next Anything (output out.old.items at.old) (output out.new.items at.new) result }
{
    let item = emit::dead(alloc, object)?;
    push(out, at, item)
}

/// `end`.
#[tactic(auto, using(crate::proofs::Outputs::outputs))]
pub fn end(alloc: Global, out: &mut Vec<Item>, at: &mut Counts) -> Result<(), LowerError>
    ensures { Emits (only action.End) at.old.next Anything (output out.old.items at.old) (output out.new.items at.new) result }
{
    let item = emit::end(alloc)?;
    push(out, at, item)
}
