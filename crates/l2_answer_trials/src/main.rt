//! Answers words over files in memory, so that each status and each line is seen.
#![tactic(auto)]

mod checks;
mod decisions;
mod rows;
mod shows;
mod trial;

use std::process::ExitCode;

fn main(rt: HostRuntime) -> ExitCode {
    let alloc = rt.alloc();
    let all = rows::executions(&rt, alloc)
        && rows::refusals(&rt, alloc)
        && rows::limits(&rt, alloc)
        && rows::faults(&rt, alloc)
        && rows::commands(&rt, alloc)
        && shows::programs(&rt, alloc)
        && shows::refusals(&rt, alloc)
        && shows::commands(&rt, alloc)
        && checks::certificates(&rt, alloc)
        && checks::commands(&rt, alloc)
        && decisions::verdicts(&rt, alloc);
    ExitCode::from(u8::from(!all))
}
