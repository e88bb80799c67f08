//! Solves formulas and checks derivations over files in memory, so that each status and each line is seen.
#![tactic(auto)]

mod rows;
mod trial;

use std::process::ExitCode;

fn main(rt: HostRuntime) -> ExitCode {
    let alloc = rt.alloc();
    let all = rows::formulas(&rt, alloc)
        && rows::refusals(&rt, alloc)
        && rows::derivations(&rt, alloc)
        && rows::pigeons(&rt, alloc)
        && rows::commands(&rt, alloc)
        && rows::faults(&rt, alloc);
    ExitCode::from(u8::from(!all))
}
