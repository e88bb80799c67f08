//! A verifier for C programs. Today it checks certificates, and replays executions, of programs of a small form.
#![tactic(auto)]

mod run;

use l2_outside::{FileShelf, StdSink};
use l2_status::Status;
pub use run::run;
use std::process::ExitCode;
use std::{env, io};

fn main(rt: HostRuntime) -> ExitCode {
    let alloc = rt.alloc();
    let mut words = Vec::new(alloc);
    match env::args(&rt) {
        Ok(all) => {
            for word in all.skip(1) {
                if words.push(word).is_err() {
                    return ExitCode::from(Status::NoMemory.number());
                }
            }
        }
        Err(e) if e.kind() == io::ErrorKind::OutOfMemory => return ExitCode::from(
            Status::NoMemory.number(),
        ),
        // words that aren't UTF-8 are no command: none is handed on
        Err(_) => {}
    }
    let mut shelf = FileShelf::new(&rt);
    let mut out = StdSink::new(rt.stdout());
    ExitCode::from(run(&rt, alloc, &words, &mut shelf, &mut out).number())
}
