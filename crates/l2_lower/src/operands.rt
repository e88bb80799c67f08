// Operands that are computed: by an instruction, or at once where they are constants.
ghost use Rattle.std.specs.Option.{unwrap_or};
ghost use Rattle.std.specs.Prelude.{◌≡◌, ◌≢◌, pos, not, false, ◌&&◌, [], ◌∷◌, None, IfSome};
ghost use Rattle.l2_bits.specs.declared.operators.Op.TheVariants as op_kind;
ghost use Rattle.l2_bits.specs.Operators.{IsRightOperand, overflows};
ghost use Rattle.l2_bits.specs.Values.{IsValue};
ghost use Rattle.l2_runs.specs.Operators.{truth};
ghost use Rattle.l2_runs.specs.declared.cells.CellValue.TheVariants.{Number};
ghost use Rattle.l2_code.specs.declared.action.Operand.TheVariants.{Constant};
ghost use Rattle.l2_code.specs.declared.action.Computation.TheVariants as computation;
ghost use Rattle.l2_code.specs.declared.action.Test.TheVariants as test;
ghost use Rattle.l2_code.specs.Values.{operate};
ghost use Rattle.l2_lower.specs.Emitting.{is_constant, are_constant, computed, overflow_check};
ghost use Rattle.l2_lower.specs.Operands.{IsOperandOf};
ghost use Rattle.l2_lower.specs.Output.{output, Emits, Anything};

use crate::emitter::{self, Counts};
use crate::error::LowerError;
use l2_bits::{Op, Ty, add, and, convert, div, mul, or, overflows, rem, shl, shr, sub, xor};
use l2_code::{Item, Operand, Operator, Test};
use l2_runs::CellValue;
use std::alloc::Global;

/// The number that an operand of this type always is.
fn number_of(ty: Ty, a: Operand) -> Option<i128>
    requires { IsOperandOf ty a }
    ensures some { IfSome result (λ x. (a ≡ Constant (Number x)) × IsValue ty x) }
    ensures none { result ≡ None → is_constant a ≡ false }
{
    match a {
        Operand::Constant(CellValue::Number(x)) => Some(x),
        Operand::Constant(CellValue::Null) => None,
        Operand::Constant(CellValue::Invalid) => None,
        Operand::Constant(CellValue::At { .. }) => None,
        Operand::Temp(_) => None,
    }
}

/// The numbers that two operands of this type always are.
fn numbers_of(ty: Ty, a: Operand, b: Operand) -> Option<(i128, i128)>
    requires left { IsOperandOf ty a }
    requires right { IsOperandOf ty b }
    ensures some { IfSome result (λ p. (a ≡ Constant (Number p.0)) × (b ≡ Constant (Number p.1)) × IsValue ty p.0 × IsValue ty p.1) }
    ensures none { result ≡ None → are_constant (a ∷ b ∷ []) ≡ false }
{
    match number_of(ty, a) {
        Some(x) => match number_of(ty, b) {
            Some(y) => Some((x, y)),
            None => None,
        },
        None => None,
    }
}

fn or_zero(z: Option<i128>) -> i128
    ensures { result ≡ unwrap_or z (pos 0) }
{
    match z {
        Some(z) => z,
        None => 0,
    }
}

/// What an operator gives on two numbers of a type, 0 where its check breaks.
fn operate(op: Operator, ty: Ty, x: i128, y: i128) -> i128
    requires left { IsValue ty x }
    requires right { IsValue ty y }
    ensures { result ≡ unwrap_or (operate op ty x y) (pos 0) }
{
    match op {
        Operator::Add => add(ty, x, y),
        Operator::Sub => sub(ty, x, y),
        Operator::Mul => mul(ty, x, y),
        Operator::Div => or_zero(div(ty, x, y)),
        Operator::Rem => or_zero(rem(ty, x, y)),
        Operator::Shl => or_zero(shl(ty, x, y)),
        Operator::Shr => or_zero(shr(ty, x, y)),
        Operator::And => and(ty, x, y),
        Operator::Or => or(ty, x, y),
        Operator::Xor => xor(ty, x, y),
        Operator::Eq => i128::from(x == y),
        Operator::Ne => i128::from(x != y),
        Operator::Lt => i128::from(x < y),
        Operator::Le => i128::from(x <= y),
    }
}

/// An operator on two numbers.
#[tactic(auto, using(crate::proofs::Outputs::outputs))]
pub fn numbers(
    alloc: Global,
    out: &mut Vec<Item>,
    at: &mut Counts,
    op: Operator,
    ty: Ty,
    a: Operand,
    b: Operand,
) -> Result<Operand, LowerError>
    requires left { IsOperandOf ty a }
    requires right { IsOperandOf ty b }
    ensures { Emits (computed at.old.next (computation.Numbers op ty a b)).nodes (computed at.old.next (computation.Numbers op ty a b)).next (λ d. d ≡ (computed at.old.next (computation.Numbers op ty a b)).operand) (output out.old.items at.old) (output out.new.items at.new) result }
{
    match numbers_of(ty, a, b) {
        Some((x, y)) => Ok(Operand::Constant(CellValue::Number(operate(op, ty, x, y)))),
        None => emitter::operator(alloc, out, at, op, ty, a, b),
    }
}

/// A number as one of a type.
pub fn converted(
    alloc: Global,
    out: &mut Vec<Item>,
    at: &mut Counts,
    from: Ty,
    ty: Ty,
    a: Operand,
) -> Result<Operand, LowerError>
    requires { IsOperandOf from a }
    ensures { Emits (computed at.old.next (computation.Convert ty a)).nodes (computed at.old.next (computation.Convert ty a)).next (λ d. d ≡ (computed at.old.next (computation.Convert ty a)).operand) (output out.old.items at.old) (output out.new.items at.new) result }
{
    match number_of(from, a) {
        Some(x) => Ok(Operand::Constant(CellValue::Number(convert(ty, x)))),
        None => emitter::convert(alloc, out, at, ty, a),
    }
}

/// Whether an operator doesn't overflow.
fn overflow_passes(op: Op, ty: Ty, x: i128, y: i128) -> i128
    requires left { IsValue ty x }
    requires right { IsRightOperand op ty y }
    ensures { result ≡ truth (not (overflows op ty x y)) }
{
    i128::from(!overflows(op, ty, x, y))
}

/// Whether an operator doesn't overflow, as an operand.
pub fn passed(
    alloc: Global,
    out: &mut Vec<Item>,
    at: &mut Counts,
    op: Op,
    ty: Ty,
    a: Operand,
    b: Operand,
) -> Result<Operand, LowerError>
    requires left { IsOperandOf ty a }
    requires right { IsOperandOf ty b }
    requires op { op ≢ op_kind.Shl }
    ensures { Emits (computed at.old.next (computation.Passes (test.Overflow op ty a b))).nodes (computed at.old.next (computation.Passes (test.Overflow op ty a b))).next (λ d. d ≡ (computed at.old.next (computation.Passes (test.Overflow op ty a b))).operand) (output out.old.items at.old) (output out.new.items at.new) result }
{
    match numbers_of(ty, a, b) {
        Some((x, y)) => Ok(Operand::Constant(CellValue::Number(overflow_passes(op, ty, x, y)))),
        None => emitter::overflow(alloc, out, at, op, ty, a, b),
    }
}

/// The check that an operator doesn't overflow, where there is one.
#[tactic(auto, using(crate::proofs::Outputs::outputs))]
pub fn overflow_check(
    alloc: Global,
    out: &mut Vec<Item>,
    at: &mut Counts,
    c: u32,
    op: Op,
    ty: Ty,
    a: Operand,
    b: Operand,
) -> Result<(), LowerError>
    requires left { IsOperandOf ty a }
    requires right { IsOperandOf ty b }
    requires op { op ≢ op_kind.Shl }
    ensures { Emits (overflow_check at.old.next c op ty a b).nodes (overflow_check at.old.next c op ty a b).next Anything (output out.old.items at.old) (output out.new.items at.new) result }
{
    if c == 0 {
        return Ok(());
    }
    let ok = passed(alloc, out, at, op, ty, a, b)?;
    emitter::check(alloc, out, at, c, ok)
}
