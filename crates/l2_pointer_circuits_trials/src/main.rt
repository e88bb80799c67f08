//! Makes the circuits of pointers on all pointers of a small layout, whose words are constants, so that no gate is left, and then on
//! words of variables, to count what is made.
#![tactic(auto)]

mod layout;
mod pairs;
mod places;
mod rows;
mod variables;

use crate::layout::{Table, make_table};
use std::alloc::{AllocError, Global};
use std::process::ExitCode;

fn all(rt: &HostRuntime, alloc: Global, table: &mut Table) -> Result<bool, AllocError> {
    let shown = rows::print_rows(rt, alloc, table)?
        && pairs::print_pairs(rt, alloc, table)?
        && places::print_places(rt, alloc, table)?;
    Ok(shown && variables::print_counts(rt, alloc, table)?)
}

fn main(rt: HostRuntime) -> ExitCode {
    let alloc = rt.alloc();
    match make_table(alloc) {
        Ok(mut table) => match all(&rt, alloc, &mut table) {
            Ok(true) => ExitCode::SUCCESS,
            _ => ExitCode::FAILURE,
        },
        Err(_) => ExitCode::FAILURE,
    }
}
