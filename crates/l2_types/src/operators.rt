// Operators by what they ask of their operands.
ghost use Rattle.std.specs.Prelude.{◌≡◌};
ghost use Rattle.l2_types.specs.Operators.{class_of, step_of, assignment_of, defined_kind, can_overflow};

use crate::typed::{Arithmetic, Comparison, Junction};
use l2_runs::Kind;
use l2_tree::{AssignmentOperator, BinaryOperator, UpdateOperator};

/// What a binary operator does.
#[derive(Clone, Copy)]
pub enum Class {
    /// Computes in the common type.
    Computes(Arithmetic),
    /// Shifts in the type of its left operand.
    Shifts(Arithmetic),
    Compares(Comparison),
    Joins(Junction),
}

/// What an assignment does.
#[derive(Clone, Copy)]
pub enum Assigning {
    Plainly,
    Computing(Arithmetic),
    Shifting(Arithmetic),
}

pub fn class_of(op: BinaryOperator) -> Class
    ensures { result ≡ class_of op }
{
    match op {
        BinaryOperator::Multiply => Class::Computes(Arithmetic::Multiply),
        BinaryOperator::Divide => Class::Computes(Arithmetic::Divide),
        BinaryOperator::Remainder => Class::Computes(Arithmetic::Remainder),
        BinaryOperator::Add => Class::Computes(Arithmetic::Add),
        BinaryOperator::Subtract => Class::Computes(Arithmetic::Subtract),
        BinaryOperator::ShiftLeft => Class::Shifts(Arithmetic::ShiftLeft),
        BinaryOperator::ShiftRight => Class::Shifts(Arithmetic::ShiftRight),
        BinaryOperator::Less => Class::Compares(Comparison::Less),
        BinaryOperator::Greater => Class::Compares(Comparison::Greater),
        BinaryOperator::LessEqual => Class::Compares(Comparison::LessEqual),
        BinaryOperator::GreaterEqual => Class::Compares(Comparison::GreaterEqual),
        BinaryOperator::Equal => Class::Compares(Comparison::Equal),
        BinaryOperator::NotEqual => Class::Compares(Comparison::NotEqual),
        BinaryOperator::BitAnd => Class::Computes(Arithmetic::BitAnd),
        BinaryOperator::BitXor => Class::Computes(Arithmetic::BitXor),
        BinaryOperator::BitOr => Class::Computes(Arithmetic::BitOr),
        BinaryOperator::And => Class::Joins(Junction::And),
        BinaryOperator::Or => Class::Joins(Junction::Or),
    }
}

pub fn assignment_of(op: AssignmentOperator) -> Assigning
    ensures { result ≡ assignment_of op }
{
    match op {
        AssignmentOperator::Assign => Assigning::Plainly,
        AssignmentOperator::Multiply => Assigning::Computing(Arithmetic::Multiply),
        AssignmentOperator::Divide => Assigning::Computing(Arithmetic::Divide),
        AssignmentOperator::Remainder => Assigning::Computing(Arithmetic::Remainder),
        AssignmentOperator::Add => Assigning::Computing(Arithmetic::Add),
        AssignmentOperator::Subtract => Assigning::Computing(Arithmetic::Subtract),
        AssignmentOperator::ShiftLeft => Assigning::Shifting(Arithmetic::ShiftLeft),
        AssignmentOperator::ShiftRight => Assigning::Shifting(Arithmetic::ShiftRight),
        AssignmentOperator::BitAnd => Assigning::Computing(Arithmetic::BitAnd),
        AssignmentOperator::BitXor => Assigning::Computing(Arithmetic::BitXor),
        AssignmentOperator::BitOr => Assigning::Computing(Arithmetic::BitOr),
    }
}

/// `++` adds and `--` subtracts.
pub fn step_of(op: UpdateOperator) -> Arithmetic
    ensures { result ≡ step_of op }
{
    match op {
        UpdateOperator::Increment => Arithmetic::Add,
        UpdateOperator::Decrement => Arithmetic::Subtract,
    }
}

/// The check that an operator makes whatever the type.
pub fn defined_kind(op: Arithmetic) -> Option<Kind>
    ensures { result ≡ defined_kind op }
{
    match op {
        Arithmetic::Divide | Arithmetic::Remainder => Some(Kind::Division),
        Arithmetic::ShiftLeft | Arithmetic::ShiftRight => Some(Kind::Shift),
        _ => None,
    }
}

/// Whether the exact result may be none of the type's values.
pub fn can_overflow(op: Arithmetic) -> bool
    ensures { result ≡ can_overflow op }
{
    match op {
        Arithmetic::Add | Arithmetic::Subtract | Arithmetic::Multiply | Arithmetic::ShiftLeft =>
            true,
        _ => false,
    }
}
