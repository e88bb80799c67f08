// Operands of steps and of the code's computations.
ghost use Rattle.std.specs.Prelude.{◌≡◌};
ghost use Rattle.l2_code.specs.Values.{same_type};
ghost use Rattle.l2_ssa.specs.Walks.{same_value, same_operand, zero_of};
ghost use Rattle.l2_walker.specs.Parts.{test_left, test_right, left_of, right_of, live_test, live_pointer};

use crate::slots::FALSE;
use l2_code::{Computation, Operand, Test};
use l2_runs::{CellType, CellValue};

fn same_value(a: CellValue, b: CellValue) -> bool
    ensures { result ≡ same_value a b }
{
    match (a, b) {
        (CellValue::Number(n), CellValue::Number(m)) => n == m,
        (CellValue::Null, CellValue::Null) => true,
        (CellValue::Invalid, CellValue::Invalid) => true,
        (
            CellValue::At { object, offset },
            CellValue::At {
                object: other,
                offset: place,
            },
        ) => object == other && offset == place,
        _ => false,
    }
}

/// Whether two operands are one constant, or one name.
pub fn same_operand(a: Operand, b: Operand) -> bool
    ensures { result ≡ same_operand a b }
{
    match (a, b) {
        (Operand::Constant(v), Operand::Constant(w)) => same_value(v, w),
        (Operand::Temp(n), Operand::Temp(m)) => n == m,
        _ => false,
    }
}

/// Whether two types of cells are the same.
pub fn same_type(a: CellType, b: CellType) -> bool
    ensures { result ≡ same_type a b }
{
    match (a, b) {
        (CellType::Integer(t), CellType::Integer(u)) => t.width == u.width && t.signed == u.signed,
        (CellType::Pointer, CellType::Pointer) => true,
        _ => false,
    }
}

/// What a cell of a type holds where nothing is known to be there.
pub fn zero_of(ty: CellType) -> Operand
    ensures { result ≡ zero_of ty }
{
    match ty {
        CellType::Integer(_) => FALSE,
        CellType::Pointer => Operand::Constant(CellValue::Null),
    }
}

fn test_left(test: &Test) -> Operand
    ensures { result ≡ test_left test.now }
{
    match test {
        Test::Division(_, left, _) => *left,
        Test::Shift(_, left) => *left,
        Test::Overflow(_, _, left, _) => *left,
        Test::Index(_, left) => *left,
        Test::IndexEnd(_, left) => *left,
        Test::Null(left) => *left,
        Test::Invalid(left) => *left,
        Test::Live(left) => *left,
        Test::Cells(_, left) => *left,
        Test::Move(_, left, _) => *left,
        Test::Same(left, _) => *left,
    }
}

fn test_right(test: &Test) -> Operand
    ensures { result ≡ test_right test.now }
{
    match test {
        Test::Division(_, _, right) => *right,
        Test::Shift(_, _) => FALSE,
        Test::Overflow(_, _, _, right) => *right,
        Test::Index(_, _) => FALSE,
        Test::IndexEnd(_, _) => FALSE,
        Test::Null(_) => FALSE,
        Test::Invalid(_) => FALSE,
        Test::Live(_) => FALSE,
        Test::Cells(_, _) => FALSE,
        Test::Move(_, _, right) => *right,
        Test::Same(_, right) => *right,
    }
}

/// The first operand of a computation.
pub fn left_of(what: &Computation) -> Operand
    ensures { result ≡ left_of what.now }
{
    match what {
        Computation::Numbers(_, _, left, _) => *left,
        Computation::Convert(_, left) => *left,
        Computation::Move(_, left, _) => *left,
        Computation::Pointers(_, left, _) => *left,
        Computation::Passes(test) => test_left(test),
    }
}

/// The second operand of a computation, or 0.
pub fn right_of(what: &Computation) -> Operand
    ensures { result ≡ right_of what.now }
{
    match what {
        Computation::Numbers(_, _, _, right) => *right,
        Computation::Convert(_, _) => FALSE,
        Computation::Move(_, _, right) => *right,
        Computation::Pointers(_, _, right) => *right,
        Computation::Passes(test) => test_right(test),
    }
}

/// The pointer of whose object a computation asks whether it is live.
pub fn live_pointer(what: &Computation) -> Option<Operand>
    ensures { result ≡ live_pointer what.now }
{
    match what {
        Computation::Numbers(_, _, _, _) => None,
        Computation::Convert(_, _) => None,
        Computation::Move(_, _, _) => None,
        Computation::Pointers(_, _, _) => None,
        Computation::Passes(test) => live_test(test),
    }
}

fn live_test(test: &Test) -> Option<Operand>
    ensures { result ≡ live_test test.now }
{
    match test {
        Test::Live(pointer) => Some(*pointer),
        Test::Division(_, _, _) => None,
        Test::Shift(_, _) => None,
        Test::Overflow(_, _, _, _) => None,
        Test::Index(_, _) => None,
        Test::IndexEnd(_, _) => None,
        Test::Null(_) => None,
        Test::Invalid(_) => None,
        Test::Cells(_, _) => None,
        Test::Move(_, _, _) => None,
        Test::Same(_, _) => None,
    }
}
