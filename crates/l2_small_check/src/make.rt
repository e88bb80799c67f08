// Trees, made of their parts.
ghost use Rattle.std.specs.Prelude.{◌≡◌, IfOk, IfErr};
ghost use Rattle.l2_bits.specs.Types.{int_type};
ghost use Rattle.l2_program.specs.Checked.{Unary, Binary, If, IfElse, typed_tree, checked_tree};
ghost use Rattle.l2_small_check.specs.Elaboration.{assignment, assertion, loop};
ghost use Rattle.l2_small_check.specs.declared.error.CheckError.TheVariants.{NoMemory};

use crate::error::CheckError;
use crate::named::{names_in, names_of};
use l2_bits::{List, Ty};
use l2_program::{Checked, Lvalue, Typed};
use l2_runs::{BinaryOperator, CellType, UnaryOperator};
use std::alloc::Global;

/// An operator of `int` on its operand.
pub fn unary(alloc: Global, operator: UnaryOperator, operand: Typed) -> Result<Typed, CheckError>
    ensures ok { IfOk result (λ t. typed_tree t ≡ Unary operator int_type 0 (typed_tree operand)) }
    ensures err { IfErr result (λ f. f ≡ NoMemory) }
{
    Ok(Typed::Unary(operator, Ty::INT, 0, Box::new(alloc, operand)?))
}

/// An operator of `int` on its operands.
pub fn binary(
    alloc: Global,
    operator: BinaryOperator,
    left: Typed,
    right: Typed,
) -> Result<Typed, CheckError>
    ensures ok { IfOk result (λ t. typed_tree t ≡ Binary operator int_type 0 (typed_tree left) (typed_tree right)) }
    ensures err { IfErr result (λ f. f ≡ NoMemory) }
{
    Ok(Typed::Binary(
        operator,
        Ty::INT,
        0,
        Box::new(alloc, left)?,
        Box::new(alloc, right)?,
    ))
}

/// `object = value;`.
pub fn assignment(alloc: Global, object: u32, value: Typed) -> Result<Checked, CheckError>
    ensures ok { IfOk result (λ s. checked_tree s ≡ assignment object (typed_tree value)) }
    ensures err { IfErr result (λ f. f ≡ NoMemory) }
{
    Ok(Checked::Evaluate(Typed::Assign(
        CellType::Integer(Ty::INT),
        Lvalue::Object(object),
        Box::new(alloc, value)?,
    )))
}

/// `assert(test);`.
pub fn assertion(alloc: Global, check: u32, test: Typed) -> Result<Checked, CheckError>
    ensures ok { IfOk result (λ s. checked_tree s ≡ assertion check (typed_tree test)) }
    ensures err { IfErr result (λ f. f ≡ NoMemory) }
{
    Ok(Checked::Evaluate(Typed::Assert(check, Box::new(alloc, test)?)))
}

pub fn if_then(alloc: Global, test: Typed, body: Checked) -> Result<Checked, CheckError>
    ensures ok { IfOk result (λ s. checked_tree s ≡ If (typed_tree test) (checked_tree body)) }
    ensures err { IfErr result (λ f. f ≡ NoMemory) }
{
    Ok(Checked::If(test, Box::new(alloc, body)?))
}

pub fn if_else(
    alloc: Global,
    test: Typed,
    body: Checked,
    other: Checked,
) -> Result<Checked, CheckError>
    ensures ok { IfOk result (λ s. checked_tree s ≡ IfElse (typed_tree test) (checked_tree body) (checked_tree other)) }
    ensures err { IfErr result (λ f. f ≡ NoMemory) }
{
    Ok(Checked::IfElse(test, Box::new(alloc, body)?, Box::new(alloc, other)?))
}

pub fn while_loop(
    alloc: Global,
    number: u32,
    test: Typed,
    body: Checked,
) -> Result<Checked, CheckError>
    ensures ok { IfOk result (λ s. checked_tree s ≡ loop number (typed_tree test) (checked_tree body)) }
    ensures err { IfErr result (λ f. f ≡ NoMemory) }
{
    let mut named = Vec::new(alloc);
    names_of(&test, &mut named)?;
    names_in(&body, &mut named)?;
    Ok(Checked::While(number, List::new(named), test, Box::new(alloc, body)?))
}
