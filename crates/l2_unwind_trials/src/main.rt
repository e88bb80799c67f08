//! Unwinds three loops, one in another, so that `unwind` is seen to come to each of its answers.
#![tactic(auto)]

mod nest;

ghost use Rattle.l2_code.specs.Sets.{AllRise};

use crate::nest::{nest, no_sets};
use l2_code::{Code, Sets};
use l2_unwind::{UnwindError, unwind};
use std::process::ExitCode;

/// Unwinds with so many copies, and prints what comes.
fn unwound(rt: &HostRuntime, code: &Code, sets: &Sets, copies: u32, rows: &[u32]) -> bool
    requires { AllRise sets.now.sets }
{
    match unwind(rt.alloc(), code, sets, copies, rows) {
        Ok(flat) => {
            let copies = flat.copies;
            println!(rt; "copies {copies}: unwound").is_ok()
        }
        Err(UnwindError::TooLarge { size }) => {
            println!(rt; "copies {copies}: too large, {size}").is_ok()
        }
        Err(UnwindError::NoMemory) => false,
    }
}

fn all(rt: &HostRuntime, code: &Code, sets: &Sets) -> bool
    requires { AllRise sets.now.sets }
{
    unwound(rt, code, sets, 1, &[0, 0, 0])
        && unwound(rt, code, sets, 19, &[0, 0, 0])
        && unwound(rt, code, sets, 20, &[0, 0, 0])
        && unwound(rt, code, sets, 19, &[0, 0, 1])
        && unwound(rt, code, sets, 64, &[0, 0, 0])
        && unwound(rt, code, sets, u32::MAX, &[9, 9, 9])
}

fn main(rt: HostRuntime) -> ExitCode {
    let alloc = rt.alloc();
    match nest(alloc) {
        Ok(code) => match no_sets(alloc) {
            Ok(sets) => ExitCode::from(u8::from(!all(&rt, &code, &sets))),
            Err(_) => ExitCode::from(1),
        },
        Err(_) => ExitCode::from(1),
    }
}
