// The words of instructions.
ghost use Rattle.std.specs.Prelude.{◌≡◌, IfOk, string_bytes};
ghost use Rattle.l2_listing.specs.Texts.{integer_text, type_text, operator_text, pointer_operator_text, overflow_text, constant_text, operand_text};

use l2_bits::{Op, Ty};
use l2_code::{Operand, Operator, PointerOperator};
use l2_runs::{CellType, CellValue};
use std::alloc::{AllocError, Global};

pub fn integer_text(alloc: Global, ty: Ty) -> Result<String, AllocError>
    ensures { IfOk result (λ s. string_bytes s ≡ integer_text ty) }
{
    let width = ty.width;
    if width == 1 {
        String::from_str(alloc, "bool")
    } else if ty.signed {
        format!(in alloc; "i{width}")
    } else {
        format!(in alloc; "u{width}")
    }
}

pub fn type_text(alloc: Global, ty: CellType) -> Result<String, AllocError>
    ensures { IfOk result (λ s. string_bytes s ≡ type_text ty) }
{
    match ty {
        CellType::Integer(ty) => integer_text(alloc, ty),
        CellType::Pointer => String::from_str(alloc, "ptr"),
    }
}

pub fn operator_text(operator: Operator) -> &'static str
    ensures { result.now ≡ operator_text operator }
{
    match operator {
        Operator::Add => "add",
        Operator::Sub => "sub",
        Operator::Mul => "mul",
        Operator::Div => "div",
        Operator::Rem => "rem",
        Operator::Shl => "shl",
        Operator::Shr => "shr",
        Operator::And => "and",
        Operator::Or => "or",
        Operator::Xor => "xor",
        Operator::Eq => "eq",
        Operator::Ne => "ne",
        Operator::Lt => "lt",
        Operator::Le => "le",
    }
}

pub fn pointer_operator_text(operator: PointerOperator) -> &'static str
    ensures { result.now ≡ pointer_operator_text operator }
{
    match operator {
        PointerOperator::Diff => "pdiff",
        PointerOperator::Eq => "peq",
        PointerOperator::Ne => "pne",
        PointerOperator::Lt => "plt",
        PointerOperator::Le => "ple",
    }
}

pub fn overflow_text(operator: Op) -> &'static str
    ensures { result.now ≡ overflow_text operator }
{
    match operator {
        Op::Add => "add",
        Op::Sub => "sub",
        Op::Mul => "mul",
        Op::Shl => "shl",
    }
}

fn constant_text(alloc: Global, value: CellValue) -> Result<String, AllocError>
    ensures { IfOk result (λ s. string_bytes s ≡ constant_text value) }
{
    match value {
        CellValue::Number(z) => format!(in alloc; "{z}"),
        CellValue::Null => String::from_str(alloc, "null"),
        CellValue::Invalid => String::from_str(alloc, "invalid"),
        CellValue::At { object, offset } => format!(in alloc; "&{object}+{offset}"),
    }
}

pub fn operand_text(alloc: Global, operand: Operand) -> Result<String, AllocError>
    ensures { IfOk result (λ s. string_bytes s ≡ operand_text operand) }
{
    match operand {
        Operand::Constant(value) => constant_text(alloc, value),
        Operand::Temp(n) => format!(in alloc; "t{n}"),
    }
}
