//! Prints the equations of codes by hand, so that each call that makes them is seen to come to its answer.
#![tactic(auto)]

mod codes;
mod text;

use l2_code::{Code, Sets};
use l2_ssa::{Kind, Ssa};
use std::alloc::AllocError;
use std::process::ExitCode;

fn show(rt: &HostRuntime, ssa: &Ssa<'_>) -> Result<bool, AllocError> {
    let mut name: u32 = 0;
    for step in &ssa.steps {
        let line = text::step(rt.alloc(), step)?;
        if println!(rt; "n{name} {line}").is_err() || name == u32::MAX {
            return Ok(false);
        }
        name += 1;
    }
    for event in &ssa.events {
        let line = text::event(rt.alloc(), *event)?;
        if println!(rt; "{line}").is_err() {
            return Ok(false);
        }
    }
    let heads = ssa.heads.len();
    Ok(println!(rt; "heads: {heads}").is_ok())
}

fn walked(
    rt: &HostRuntime,
    title: &str,
    code: Code,
    copies: u32,
    kinds: &[Kind],
    ranks: bool,
) -> Result<bool, AllocError> {
    let sets: Sets = codes::sets(rt.alloc())?;
    if println!(rt; "{title}").is_err() {
        return Ok(false);
    }
    let ssa = l2_walk::walk(rt.alloc(), &code, &sets, copies, kinds, ranks)?;
    show(rt, &ssa)
}

fn all(rt: &HostRuntime) -> Result<bool, AllocError> {
    let alloc = rt.alloc();
    let bottom = [Kind::Bottom, Kind::Bottom];
    let rows = [Kind::Rows(1), Kind::Plain];
    Ok(
        walked(rt, "checked", codes::checked(alloc)?, 1, &[], false)?
            && walked(rt, "joined", codes::joined(alloc)?, 1, &[], false)?
            && walked(rt, "pointed", codes::pointed(alloc)?, 1, &[], false)?
            && walked(rt, "at bottom", codes::looped(alloc)?, 2, &bottom, false)?
            && walked(rt, "with a row", codes::looped(alloc)?, 2, &rows, false)?
            && walked(rt, "with a ranking", codes::looped(alloc)?, 1, &rows, true)?
            && walked(rt, "nested", codes::nested(alloc)?, 2, &rows, false)?,
    )
}

fn main(rt: HostRuntime) -> ExitCode {
    match all(&rt) {
        Ok(done) => ExitCode::from(u8::from(!done)),
        Err(_) => ExitCode::from(1),
    }
}
