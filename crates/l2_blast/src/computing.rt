// The words of computations.
ghost use Rattle.std.specs.Prelude.{◌≡◌, ◌+◌, pos, length, IfOk, OnOk};
ghost use Rattle.l2_runs.specs.Numbers.{at_number};
ghost use Rattle.l2_code.specs.Trees.{code_of};
ghost use Rattle.l2_code.specs.Modes.{types_of, pointed_cells};
ghost use Rattle.l2_code.specs.Sets.{family, may_be};
ghost use Rattle.l2_ssa.specs.Walks.{set_of, set_of_test};
ghost use Rattle.l2_ssa.specs.Views.{test_with, with_operands};
ghost use Rattle.l2_gates.specs.Gates.{literal_of, literals_of};
ghost use Rattle.l2_number_circuits.specs.Numbers.{division_bit, shift_bit, overflow_bit, index_bit, number_word, convert_word, truth_of};
ghost use Rattle.l2_pointer_circuits.specs.Words.{moved_word, operator_word};
ghost use Rattle.l2_pointer_circuits.specs.Tests.{isnt_bit, cells_bit, move_bit, same_bit};
ghost use Rattle.l2_blast.specs.Words.{word, wide_word, is_signed, members, right_room, test_bit, computed_word};
ghost use Rattle.l2_blast.specs.Kept.{set_at};

use crate::member_lists::{SetOf, members};
use crate::words::Words;
use l2_bits::{List, Op, Ty};
use l2_circuits::{truth, truth_word};
use l2_cnf::Lit;
use l2_code::{Code, Computation, Operand, Operator, Pointed, PointerOperator, Sets, Test};
use l2_gates::Gates;
use l2_number_circuits::{
    convert_word, division_bit, index_bit, number_word, overflow_bit, shift_bit,
};
use l2_pointer_circuits::{cells_bit, isnt_bit, move_bit, moved_word, operator_word, same_bit};
use l2_runs::{CellType, Member, index_of};
use std::alloc::{AllocError, Global};

/// Where steps look: the code, its sets, and the words of the names so far.
#[derive(Clone, Copy)]
pub struct Place<'a> {
    pub code: &'a Code,
    pub sets: &'a Sets,
    pub words: &'a Words,
}

fn division(
    alloc: Global,
    gates: &mut Gates,
    words: &Words,
    ty: Ty,
    a: Operand,
    b: Operand,
) -> Result<Lit, AllocError>
    ensures is { IfOk result (λ l. literal_of l ≡ (division_bit ty (word ty.width words.now a) (word ty.width words.now b) gates.old).bit) }
    ensures made { OnOk result (gates.new ≡ (division_bit ty (word ty.width words.now a) (word ty.width words.now b) gates.old).made) }
{
    let left = words.word(alloc, usize::from(ty.width), a)?;
    let right = words.word(alloc, usize::from(ty.width), b)?;
    division_bit(alloc, gates, ty, &left, &right)
}

fn shift(
    alloc: Global,
    gates: &mut Gates,
    words: &Words,
    ty: Ty,
    a: Operand,
) -> Result<Lit, AllocError>
    ensures is { IfOk result (λ l. literal_of l ≡ (shift_bit ty (is_signed words.now a) (word 66 words.now a) gates.old).bit) }
    ensures made { OnOk result (gates.new ≡ (shift_bit ty (is_signed words.now a) (word 66 words.now a) gates.old).made) }
{
    let amount = words.word(alloc, 66, a)?;
    shift_bit(alloc, gates, ty, words.is_signed(a), &amount)
}

fn overflow(
    alloc: Global,
    gates: &mut Gates,
    words: &Words,
    op: Op,
    ty: Ty,
    a: Operand,
    b: Operand,
) -> Result<Lit, AllocError>
    ensures is { IfOk result (λ l. literal_of l ≡ (overflow_bit op ty (is_signed words.now b) (word ty.width words.now a) (word 66 words.now b) gates.old).bit) }
    ensures made { OnOk result (gates.new ≡ (overflow_bit op ty (is_signed words.now b) (word ty.width words.now a) (word 66 words.now b) gates.old).made) }
{
    let left = words.word(alloc, usize::from(ty.width), a)?;
    let right = words.word(alloc, 66, b)?;
    overflow_bit(alloc, gates, op, ty, words.is_signed(b), &left, &right)
}

fn index(
    alloc: Global,
    gates: &mut Gates,
    words: &Words,
    end: u64,
    a: Operand,
) -> Result<Lit, AllocError>
    ensures is { IfOk result (λ l. literal_of l ≡ (index_bit (pos end) (is_signed words.now a) (word 66 words.now a) gates.old).bit) }
    ensures made { OnOk result (gates.new ≡ (index_bit (pos end) (is_signed words.now a) (word 66 words.now a) gates.old).made) }
{
    let number = words.word(alloc, 66, a)?;
    index_bit(alloc, gates, i128::from(end), words.is_signed(a), &number)
}

// The members of the set of an operand of the code.
fn set_of_operand(
    alloc: Global,
    code: &Code,
    sets: &Sets,
    a: Operand,
) -> Result<Vec<Member>, AllocError>
    ensures { IfOk result (λ l. l.items ≡ members (length code.now.objects) (may_be (family sets.now) a)) }
{
    members(
        alloc,
        sets,
        SetOf::Operand(a),
        code.objects.as_slice().len(),
    )
}

fn isnt(
    alloc: Global,
    gates: &mut Gates,
    place: &Place,
    member: Member,
    of: Operand,
    a: Operand,
) -> Result<Lit, AllocError>
    ensures is { IfOk result (λ l. literal_of l ≡ (isnt_bit member (members (length place.now.code.now.objects) (may_be (family place.now.sets.now) of)) (word 34 place.now.words.now a) gates.old).bit) }
    ensures made { OnOk result (gates.new ≡ (isnt_bit member (members (length place.now.code.now.objects) (may_be (family place.now.sets.now) of)) (word 34 place.now.words.now a) gates.old).made) }
{
    let set = set_of_operand(alloc, place.code, place.sets, of)?;
    let pointer = place.words.word(alloc, 34, a)?;
    isnt_bit(alloc, gates, member, &set, &pointer)
}

// The types of the cells of a pointed type.
fn pointed_cells(pointed: &[Pointed], number: u32) -> &[CellType]
    ensures { result.now ≡ pointed_cells (at_number pointed.now number) }
{
    match index_of(number) {
        Some(index) if index < pointed.len() => pointed[index].cells.as_slice(),
        _ => &[],
    }
}

fn cells(
    alloc: Global,
    gates: &mut Gates,
    place: &Place,
    ty: u32,
    of: Operand,
    a: Operand,
) -> Result<Lit, AllocError>
    ensures is { IfOk result (λ l. literal_of l ≡ (cells_bit (types_of (code_of place.now.code.now)).objects ((types_of (code_of place.now.code.now)).pointed ty) (members (length place.now.code.now.objects) (may_be (family place.now.sets.now) of)) (word 34 place.now.words.now a) gates.old).bit) }
    ensures made { OnOk result (gates.new ≡ (cells_bit (types_of (code_of place.now.code.now)).objects ((types_of (code_of place.now.code.now)).pointed ty) (members (length place.now.code.now.objects) (may_be (family place.now.sets.now) of)) (word 34 place.now.words.now a) gates.old).made) }
{
    let set = set_of_operand(alloc, place.code, place.sets, of)?;
    let pointer = place.words.word(alloc, 34, a)?;
    let types = pointed_cells(place.code.pointed.as_slice(), ty);
    cells_bit(alloc, gates, place.code, types, &set, &pointer)
}

fn may_move(
    alloc: Global,
    gates: &mut Gates,
    place: &Place,
    by: i64,
    of: Operand,
    a: Operand,
    b: Operand,
) -> Result<Lit, AllocError>
    ensures is { IfOk result (λ l. literal_of l ≡ (move_bit (types_of (code_of place.now.code.now)).objects by (members (length place.now.code.now.objects) (may_be (family place.now.sets.now) of)) (word 34 place.now.words.now a) (wide_word 96 place.now.words.now b) gates.old).bit) }
    ensures made { OnOk result (gates.new ≡ (move_bit (types_of (code_of place.now.code.now)).objects by (members (length place.now.code.now.objects) (may_be (family place.now.sets.now) of)) (word 34 place.now.words.now a) (wide_word 96 place.now.words.now b) gates.old).made) }
{
    let set = set_of_operand(alloc, place.code, place.sets, of)?;
    let pointer = place.words.word(alloc, 34, a)?;
    let number = place.words.wide_word(alloc, 96, b)?;
    move_bit(alloc, gates, place.code, by, &set, &pointer, &number)
}

fn same(
    alloc: Global,
    gates: &mut Gates,
    words: &Words,
    a: Operand,
    b: Operand,
) -> Result<Lit, AllocError>
    ensures is { IfOk result (λ l. literal_of l ≡ (same_bit (word 34 words.now a) (word 34 words.now b) gates.old).bit) }
    ensures made { OnOk result (gates.new ≡ (same_bit (word 34 words.now a) (word 34 words.now b) gates.old).made) }
{
    let left = words.word(alloc, 34, a)?;
    let right = words.word(alloc, 34, b)?;
    same_bit(alloc, gates, &left, &right)
}

/// A test of the code, on its operands as they are now.
fn test_bit(
    alloc: Global,
    gates: &mut Gates,
    place: &Place,
    test: &Test,
    a: Operand,
    b: Operand,
) -> Result<Lit, AllocError>
    ensures is { IfOk result (λ l. literal_of l ≡ (test_bit (types_of (code_of place.now.code.now)) (length place.now.code.now.objects) (set_of_test (family place.now.sets.now) test.now) place.now.words.now (test_with test.now a b) gates.old).bit) }
    ensures made { OnOk result (gates.new ≡ (test_bit (types_of (code_of place.now.code.now)) (length place.now.code.now.objects) (set_of_test (family place.now.sets.now) test.now) place.now.words.now (test_with test.now a b) gates.old).made) }
{
    match test {
        Test::Division(ty, _, _) => division(alloc, gates, place.words, *ty, a, b),
        Test::Shift(ty, _) => shift(alloc, gates, place.words, *ty, a),
        Test::Overflow(op, ty, _, _) => overflow(alloc, gates, place.words, *op, *ty, a, b),
        Test::Index(end, _) => index(alloc, gates, place.words, u64::from(*end), a),
        Test::IndexEnd(end, _) => index(alloc, gates, place.words, u64::from(*end) + 1, a),
        Test::Null(of) => isnt(alloc, gates, place, Member::Null, *of, a),
        Test::Invalid(of) => isnt(alloc, gates, place, Member::Invalid, *of, a),
        Test::Live(_) => Ok(truth()),
        Test::Cells(ty, of) => cells(alloc, gates, place, *ty, *of, a),
        Test::Move(by, of, _) => may_move(alloc, gates, place, *by, *of, a, b),
        Test::Same(_, _) => same(alloc, gates, place.words, a, b),
    }
}

fn numbers(
    alloc: Global,
    gates: &mut Gates,
    words: &Words,
    op: Operator,
    ty: Ty,
    a: Operand,
    b: Operand,
) -> Result<Vec<Lit>, AllocError>
    ensures bits { IfOk result (λ w. literals_of w.items ≡ (number_word op ty (word ty.width words.now a) (word (right_room op ty) words.now b) gates.old).bits) }
    ensures made { OnOk result (gates.new ≡ (number_word op ty (word ty.width words.now a) (word (right_room op ty) words.now b) gates.old).made) }
{
    let left = words.word(alloc, usize::from(ty.width), a)?;
    let right = words.word(alloc, right_room(op, ty), b)?;
    number_word(alloc, gates, op, ty, &left, &right)
}

fn right_room(op: Operator, ty: Ty) -> usize
    ensures { result ≡ right_room op ty }
{
    match op {
        Operator::Shl | Operator::Shr => 66,
        Operator::Add | Operator::Sub | Operator::Mul | Operator::Div | Operator::Rem => {
            usize::from(ty.width)
        }
        Operator::And | Operator::Or | Operator::Xor => usize::from(ty.width),
        Operator::Eq | Operator::Ne | Operator::Lt | Operator::Le => usize::from(ty.width),
    }
}

fn converted(
    alloc: Global,
    gates: &mut Gates,
    words: &Words,
    ty: Ty,
    a: Operand,
) -> Result<Vec<Lit>, AllocError>
    ensures bits { IfOk result (λ w. literals_of w.items ≡ (convert_word ty (is_signed words.now a) (word 66 words.now a) gates.old).bits) }
    ensures made { OnOk result (gates.new ≡ (convert_word ty (is_signed words.now a) (word 66 words.now a) gates.old).made) }
{
    let number = words.word(alloc, 66, a)?;
    convert_word(alloc, gates, ty, words.is_signed(a), &number)
}

fn moved(
    alloc: Global,
    gates: &mut Gates,
    words: &Words,
    by: i64,
    a: Operand,
    b: Operand,
) -> Result<Vec<Lit>, AllocError>
    ensures bits { IfOk result (λ w. literals_of w.items ≡ (moved_word by (word 34 words.now a) (wide_word 96 words.now b) gates.old).bits) }
    ensures made { OnOk result (gates.new ≡ (moved_word by (word 34 words.now a) (wide_word 96 words.now b) gates.old).made) }
{
    let pointer = words.word(alloc, 34, a)?;
    let number = words.wide_word(alloc, 96, b)?;
    moved_word(alloc, gates, by, &pointer, &number)
}

fn on_pointers(
    alloc: Global,
    gates: &mut Gates,
    words: &Words,
    op: PointerOperator,
    a: Operand,
    b: Operand,
) -> Result<Vec<Lit>, AllocError>
    ensures bits { IfOk result (λ w. literals_of w.items ≡ (operator_word op (word 34 words.now a) (word 34 words.now b) gates.old).bits) }
    ensures made { OnOk result (gates.new ≡ (operator_word op (word 34 words.now a) (word 34 words.now b) gates.old).made) }
{
    let left = words.word(alloc, 34, a)?;
    let right = words.word(alloc, 34, b)?;
    operator_word(alloc, gates, op, &left, &right)
}

fn passes(
    alloc: Global,
    gates: &mut Gates,
    place: &Place,
    test: &Test,
    a: Operand,
    b: Operand,
) -> Result<Vec<Lit>, AllocError>
    ensures bits { IfOk result (λ w. literals_of w.items ≡ (truth_of (test_bit (types_of (code_of place.now.code.now)) (length place.now.code.now.objects) (set_of_test (family place.now.sets.now) test.now) place.now.words.now (test_with test.now a b) gates.old)).bits) }
    ensures made { OnOk result (gates.new ≡ (truth_of (test_bit (types_of (code_of place.now.code.now)) (length place.now.code.now.objects) (set_of_test (family place.now.sets.now) test.now) place.now.words.now (test_with test.now a b) gates.old)).made) }
{
    let passed = test_bit(alloc, gates, place, test, a, b)?;
    truth_word(alloc, passed)
}

/// A computation of the code, on its operands as they are now.
pub fn computed_word(
    alloc: Global,
    gates: &mut Gates,
    place: &Place,
    what: &Computation,
    a: Operand,
    b: Operand,
) -> Result<Vec<Lit>, AllocError>
    ensures bits { IfOk result (λ w. literals_of w.items ≡ (computed_word (types_of (code_of place.now.code.now)) (length place.now.code.now.objects) (set_of (family place.now.sets.now) what.now) place.now.words.now (with_operands what.now a b) gates.old).bits) }
    ensures made { OnOk result (gates.new ≡ (computed_word (types_of (code_of place.now.code.now)) (length place.now.code.now.objects) (set_of (family place.now.sets.now) what.now) place.now.words.now (with_operands what.now a b) gates.old).made) }
{
    match what {
        Computation::Numbers(op, ty, _, _) => numbers(alloc, gates, place.words, *op, *ty, a, b),
        Computation::Convert(ty, _) => converted(alloc, gates, place.words, *ty, a),
        Computation::Move(by, _, _) => moved(alloc, gates, place.words, *by, a, b),
        Computation::Pointers(op, _, _) => on_pointers(alloc, gates, place.words, *op, a, b),
        Computation::Passes(test) => passes(alloc, gates, place, test, a, b),
    }
}
