// Instructions.
ghost use Rattle.std.specs.Prelude.{◌≡◌, IfOk, string_bytes};
ghost use Rattle.l2_listing.specs.Texts.{test_text, computation_text, action_text};

use crate::words::{
    integer_text, operand_text, operator_text, overflow_text, pointer_operator_text, type_text,
};
use l2_code::{Action, Computation, Test};
use std::alloc::{AllocError, Global};

fn test_text(alloc: Global, test: &Test) -> Result<String, AllocError>
    ensures { IfOk result (λ s. string_bytes s ≡ test_text test.now) }
{
    match test {
        Test::Division(ty, a, b) => {
            let ty = integer_text(alloc, *ty)?;
            let a = operand_text(alloc, *a)?;
            let b = operand_text(alloc, *b)?;
            format!(in alloc; "okdiv {ty} {a} {b}")
        }
        Test::Shift(ty, b) => {
            let ty = integer_text(alloc, *ty)?;
            let b = operand_text(alloc, *b)?;
            format!(in alloc; "okshift {ty} {b}")
        }
        Test::Overflow(op, ty, a, b) => {
            let op = overflow_text(*op);
            let ty = integer_text(alloc, *ty)?;
            let a = operand_text(alloc, *a)?;
            let b = operand_text(alloc, *b)?;
            format!(in alloc; "okover {op} {ty} {a} {b}")
        }
        Test::Index(l, b) => {
            let b = operand_text(alloc, *b)?;
            format!(in alloc; "okindex {l} {b}")
        }
        Test::IndexEnd(l, b) => {
            let b = operand_text(alloc, *b)?;
            format!(in alloc; "okindexend {l} {b}")
        }
        Test::Null(a) => {
            let a = operand_text(alloc, *a)?;
            format!(in alloc; "oknull {a}")
        }
        Test::Invalid(a) => {
            let a = operand_text(alloc, *a)?;
            format!(in alloc; "okinvalid {a}")
        }
        Test::Live(a) => {
            let a = operand_text(alloc, *a)?;
            format!(in alloc; "oklive {a}")
        }
        Test::Cells(x, a) => {
            let a = operand_text(alloc, *a)?;
            format!(in alloc; "okcells {x} {a}")
        }
        Test::Move(s, a, b) => {
            let a = operand_text(alloc, *a)?;
            let b = operand_text(alloc, *b)?;
            format!(in alloc; "okpadd {s} {a} {b}")
        }
        Test::Same(a, b) => {
            let a = operand_text(alloc, *a)?;
            let b = operand_text(alloc, *b)?;
            format!(in alloc; "oksame {a} {b}")
        }
    }
}

fn computation_text(alloc: Global, computation: &Computation) -> Result<String, AllocError>
    ensures { IfOk result (λ s. string_bytes s ≡ computation_text computation.now) }
{
    match computation {
        Computation::Numbers(op, ty, a, b) => {
            let op = operator_text(*op);
            let ty = integer_text(alloc, *ty)?;
            let a = operand_text(alloc, *a)?;
            let b = operand_text(alloc, *b)?;
            format!(in alloc; "{op} {ty} {a} {b}")
        }
        Computation::Convert(ty, a) => {
            let ty = integer_text(alloc, *ty)?;
            let a = operand_text(alloc, *a)?;
            format!(in alloc; "conv {ty} {a}")
        }
        Computation::Move(s, a, b) => {
            let a = operand_text(alloc, *a)?;
            let b = operand_text(alloc, *b)?;
            format!(in alloc; "padd {s} {a} {b}")
        }
        Computation::Pointers(op, a, b) => {
            let op = pointer_operator_text(*op);
            let a = operand_text(alloc, *a)?;
            let b = operand_text(alloc, *b)?;
            format!(in alloc; "{op} {a} {b}")
        }
        Computation::Passes(test) => test_text(alloc, test),
    }
}

/// An instruction, with the number to which it jumps.
pub fn action_text(alloc: Global, action: &Action, to: usize) -> Result<String, AllocError>
    ensures { IfOk result (λ s. string_bytes s ≡ action_text action.now to) }
{
    match action {
        Action::Compute(t, computation) => {
            let text = computation_text(alloc, computation)?;
            format!(in alloc; "t{t} = {text}")
        }
        Action::Read(t, ty, a) => {
            let ty = type_text(alloc, *ty)?;
            let a = operand_text(alloc, *a)?;
            format!(in alloc; "t{t} = read {ty} {a}")
        }
        Action::Write(ty, a, b) => {
            let ty = type_text(alloc, *ty)?;
            let a = operand_text(alloc, *a)?;
            let b = operand_text(alloc, *b)?;
            format!(in alloc; "write {ty} {a} {b}")
        }
        Action::Choice(t, ty) => {
            let ty = integer_text(alloc, *ty)?;
            format!(in alloc; "t{t} = choice {ty}")
        }
        Action::Assume(a) => {
            let a = operand_text(alloc, *a)?;
            format!(in alloc; "assume {a}")
        }
        Action::Check(c, a) => {
            let a = operand_text(alloc, *a)?;
            format!(in alloc; "check {c} {a}")
        }
        Action::Unless(a, _) => {
            let a = operand_text(alloc, *a)?;
            format!(in alloc; "unless {a} {to}")
        }
        Action::Goto(_) => format!(in alloc; "goto {to}"),
        Action::Live(o) => format!(in alloc; "live {o}"),
        Action::Dead(o) => format!(in alloc; "dead {o}"),
        Action::End => String::from_str(alloc, "end"),
    }
}
