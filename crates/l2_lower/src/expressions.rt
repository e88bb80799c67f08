// Expressions.
ghost use Rattle.std.specs.Prelude.{◌≡◌, ◌≢◌, [], ◌∷◌, IfOk};
ghost use Rattle.l2_bits.specs.declared.operators.Op.TheVariants as op_kind;
ghost use Rattle.l2_code.specs.declared.action.Computation.TheVariants.{Numbers};
ghost use Rattle.l2_runs.specs.declared.cells.CellType.TheVariants.{Integer};
ghost use Rattle.l2_program.specs.Checked.{lvalue_tree, typed_tree};
ghost use Rattle.l2_program.specs.Programs.{program_tree};
ghost use Rattle.l2_program.specs.Types.{type_of, is_computing, is_arithmetic, given};
ghost use Rattle.l2_meaning.specs.Execution.{cells_of};
ghost use Rattle.l2_meaning.specs.Lawful.{IsInteger, IsTyped};
ghost use Rattle.l2_code.specs.Values.{same_type};
ghost use Rattle.l2_lower.specs.Emitting.{address, after, computed, overflow_check, unary_code, binary_code, conversion, expression, condition};
ghost use Rattle.l2_lower.specs.Operands.{IsOperandOf};
ghost use Rattle.l2_lower.specs.Output.{output, Emits};

use crate::emitter::{self, Counts};
use crate::error::LowerError;
use crate::operands::{converted, numbers, overflow_check};
use l2_bits::{Op, Ty};
use l2_code::{Item, Operand, Operator};
use l2_program::{Lvalue, Program, Typed};
use l2_runs::{BinaryOperator, CellType, CellValue, UnaryOperator};
use std::alloc::Global;

const ZERO: Operand = Operand::Constant(CellValue::Number(0));

/// The address of an lvalue's cell.
fn address(l: &Lvalue) -> Operand
    ensures { result ≡ address (lvalue_tree l.now) }
{
    match l {
        Lvalue::Object(n) => Operand::Constant(CellValue::At {
            object: *n,
            offset: 0,
        }),
    }
}

fn is_same(to: Ty, from: Ty) -> bool
    ensures { result ≡ same_type (Integer to) (Integer from) }
{
    to.width == from.width && (if to.signed { from.signed } else { !from.signed })
}

/// The integer type that a cell's type is.
fn integer_of(ty: CellType) -> Ty
    requires { IsInteger (ty ∷ []) }
    ensures { ty ≡ Integer result }
{
    if let CellType::Integer(of) = ty {
        return of;
    }
    Ty::INT
}

fn unary_type(op: UnaryOperator, ty: Ty) -> Ty
    ensures { result ≡ given (is_computing op) ty }
{
    match op {
        UnaryOperator::Negate => ty,
        UnaryOperator::Not => Ty::INT,
    }
}

fn binary_type(op: BinaryOperator, ty: Ty) -> Ty
    ensures { result ≡ given (is_arithmetic op) ty }
{
    match op {
        BinaryOperator::Multiply | BinaryOperator::Add | BinaryOperator::Subtract => ty,
        BinaryOperator::Less
        | BinaryOperator::LessEqual
        | BinaryOperator::Greater
        | BinaryOperator::GreaterEqual
        | BinaryOperator::Equal
        | BinaryOperator::NotEqual => Ty::INT,
    }
}

/// The type of an expression that gives a number or a pointer.
fn scalar_type(e: &Typed) -> CellType
    requires { IsInteger (type_of (typed_tree e.now)) }
    ensures { type_of (typed_tree e.now) ≡ result ∷ [] }
{
    match e {
        Typed::Constant(ty, _) => *ty,
        Typed::Choice(ty) => CellType::Integer(*ty),
        Typed::Read(ty, _) => *ty,
        Typed::Unary(op, ty, _, _) => CellType::Integer(unary_type(*op, *ty)),
        Typed::Binary(op, ty, _, _, _) => CellType::Integer(binary_type(*op, *ty)),
        Typed::Convert(ty, _) => CellType::Integer(*ty),
        Typed::Assign(ty, _, _) => *ty,
        Typed::Assert(_, _) => CellType::Pointer,
    }
}

/// The type of an integer expression.
fn integer_type(e: &Typed) -> Ty
    requires { IsInteger (type_of (typed_tree e.now)) }
    ensures { type_of (typed_tree e.now) ≡ Integer result ∷ [] }
{
    integer_of(scalar_type(e))
}

#[tactic(auto, using(crate::proofs::Outputs::operators))]
fn unary(
    alloc: Global,
    out: &mut Vec<Item>,
    at: &mut Counts,
    op: UnaryOperator,
    ty: Ty,
    c: u32,
    a: Operand,
) -> Result<Operand, LowerError>
    requires { IsOperandOf ty a }
    ensures { Emits (unary_code at.old.next op ty c a).nodes (unary_code at.old.next op ty c a).next (λ d. d ≡ (unary_code at.old.next op ty c a).operand) (output out.old.items at.old) (output out.new.items at.new) result }
{
    match op {
        UnaryOperator::Negate => {
            overflow_check(alloc, out, at, c, Op::Sub, ty, ZERO, a)?;
            numbers(alloc, out, at, Operator::Sub, ty, ZERO, a)
        }
        UnaryOperator::Not => numbers(alloc, out, at, Operator::Eq, ty, a, ZERO),
    }
}

#[tactic(auto, using(crate::proofs::Outputs::operators))]
fn arithmetic(
    alloc: Global,
    out: &mut Vec<Item>,
    at: &mut Counts,
    ops: (Op, Operator),
    ty: Ty,
    c: u32,
    a: Operand,
    b: Operand,
) -> Result<Operand, LowerError>
    requires left { IsOperandOf ty a }
    requires right { IsOperandOf ty b }
    requires op { ops.0 ≢ op_kind.Shl }
    ensures { Emits (after (overflow_check at.old.next c ops.0 ty a b) (λ m. computed m (Numbers ops.1 ty a b))).nodes (after (overflow_check at.old.next c ops.0 ty a b) (λ m. computed m (Numbers ops.1 ty a b))).next (λ d. d ≡ (after (overflow_check at.old.next c ops.0 ty a b) (λ m. computed m (Numbers ops.1 ty a b))).operand) (output out.old.items at.old) (output out.new.items at.new) result }
{
    overflow_check(alloc, out, at, c, ops.0, ty, a, b)?;
    numbers(alloc, out, at, ops.1, ty, a, b)
}

#[tactic(auto, using(crate::proofs::Outputs::operators))]
fn binary(
    alloc: Global,
    out: &mut Vec<Item>,
    at: &mut Counts,
    op: BinaryOperator,
    ty: Ty,
    c: u32,
    a: Operand,
    b: Operand,
) -> Result<Operand, LowerError>
    requires left { IsOperandOf ty a }
    requires right { IsOperandOf ty b }
    ensures { Emits (binary_code at.old.next op ty c a b).nodes (binary_code at.old.next op ty c a b).next (λ d. d ≡ (binary_code at.old.next op ty c a b).operand) (output out.old.items at.old) (output out.new.items at.new) result }
{
    match op {
        BinaryOperator::Multiply => {
            arithmetic(alloc, out, at, (Op::Mul, Operator::Mul), ty, c, a, b)
        }
        BinaryOperator::Add => arithmetic(alloc, out, at, (Op::Add, Operator::Add), ty, c, a, b),
        BinaryOperator::Subtract => {
            arithmetic(alloc, out, at, (Op::Sub, Operator::Sub), ty, c, a, b)
        }
        BinaryOperator::Less => numbers(alloc, out, at, Operator::Lt, ty, a, b),
        BinaryOperator::LessEqual => numbers(alloc, out, at, Operator::Le, ty, a, b),
        BinaryOperator::Greater => numbers(alloc, out, at, Operator::Lt, ty, b, a),
        BinaryOperator::GreaterEqual => numbers(alloc, out, at, Operator::Le, ty, b, a),
        BinaryOperator::Equal => numbers(alloc, out, at, Operator::Eq, ty, a, b),
        BinaryOperator::NotEqual => numbers(alloc, out, at, Operator::Ne, ty, a, b),
    }
}

/// A number of one type as one of another.
#[tactic(auto, using(crate::proofs::Outputs::operators))]
fn conversion(
    alloc: Global,
    out: &mut Vec<Item>,
    at: &mut Counts,
    from: Ty,
    to: Ty,
    a: Operand,
) -> Result<Operand, LowerError>
    requires { IsOperandOf from a }
    ensures { Emits (conversion at.old.next (Integer from ∷ []) to a).nodes (conversion at.old.next (Integer from ∷ []) to a).next (λ d. d ≡ (conversion at.old.next (Integer from ∷ []) to a).operand) (output out.old.items at.old) (output out.new.items at.new) result }
{
    if is_same(to, from) {
        Ok(a)
    } else {
        converted(alloc, out, at, from, to, a)
    }
}

/// The operand of an integer expression.
#[cycle(expressions)]
#[tactic(auto, using(crate::proofs::Outputs::operators))]
fn number(
    alloc: Global,
    p: &Program,
    out: &mut Vec<Item>,
    at: &mut Counts,
    ty: Ty,
    e: &Typed,
) -> Result<Operand, LowerError>
    requires typed { IsTyped (cells_of (program_tree p.now)) (typed_tree e.now) }
    requires integer { type_of (typed_tree e.now) ≡ Integer ty ∷ [] }
    ensures emits { Emits (expression at.old.next (typed_tree e.now)).nodes (expression at.old.next (typed_tree e.now)).next (λ d. d ≡ (expression at.old.next (typed_tree e.now)).operand) (output out.old.items at.old) (output out.new.items at.new) result }
    ensures fits { IfOk result (λ d. IsOperandOf ty d) }
{
    expression(alloc, p, out, at, e)
}

/// What an expression becomes, and the operand that has its value.
#[cycle(expressions)]
#[tactic(auto, using(crate::proofs::Outputs::operators))]
pub fn expression(
    alloc: Global,
    p: &Program,
    out: &mut Vec<Item>,
    at: &mut Counts,
    e: &Typed,
) -> Result<Operand, LowerError>
    requires { IsTyped (cells_of (program_tree p.now)) (typed_tree e.now) }
    ensures { Emits (expression at.old.next (typed_tree e.now)).nodes (expression at.old.next (typed_tree e.now)).next (λ d. d ≡ (expression at.old.next (typed_tree e.now)).operand) (output out.old.items at.old) (output out.new.items at.new) result }
{
    match e {
        Typed::Constant(_, v) => Ok(Operand::Constant(*v)),
        Typed::Choice(ty) => emitter::choice(alloc, out, at, *ty),
        Typed::Read(ty, l) => emitter::read(alloc, out, at, *ty, address(l)),
        Typed::Unary(op, ty, c, e) => {
            let a = number(alloc, p, out, at, *ty, e)?;
            unary(alloc, out, at, *op, *ty, *c, a)
        }
        Typed::Binary(op, ty, c, x, y) => {
            let a = number(alloc, p, out, at, *ty, x)?;
            let b = number(alloc, p, out, at, *ty, y)?;
            binary(alloc, out, at, *op, *ty, *c, a, b)
        }
        Typed::Convert(ty, e) => {
            let from = integer_type(e);
            let a = number(alloc, p, out, at, from, e)?;
            conversion(alloc, out, at, from, *ty, a)
        }
        Typed::Assign(ty, l, e) => {
            let a = expression(alloc, p, out, at, e)?;
            emitter::write(alloc, out, at, *ty, address(l), a)?;
            Ok(a)
        }
        Typed::Assert(c, e) => {
            let a = condition(alloc, p, out, at, e)?;
            emitter::check(alloc, out, at, *c, a)?;
            Ok(a)
        }
    }
}

/// What a condition becomes, and the operand that has its truth value.
#[cycle(expressions)]
#[tactic(auto, using(crate::proofs::Outputs::operators))]
pub fn condition(
    alloc: Global,
    p: &Program,
    out: &mut Vec<Item>,
    at: &mut Counts,
    e: &Typed,
) -> Result<Operand, LowerError>
    requires typed { IsTyped (cells_of (program_tree p.now)) (typed_tree e.now) }
    requires integer { IsInteger (type_of (typed_tree e.now)) }
    ensures { Emits (condition at.old.next (typed_tree e.now)).nodes (condition at.old.next (typed_tree e.now)).next (λ d. d ≡ (condition at.old.next (typed_tree e.now)).operand) (output out.old.items at.old) (output out.new.items at.new) result }
{
    let ty = integer_type(e);
    let a = number(alloc, p, out, at, ty, e)?;
    numbers(alloc, out, at, Operator::Ne, ty, a, ZERO)
}
