//! Asks made-up engines, so that each answer of `decide` is seen.
#![tactic(auto)]

mod scripted;

use l2_kiki::{Decision, Mode, decide};
use scripted::{Plan, Scripted};
use std::alloc::Global;
use std::io;

fn show(rt: &impl Print, decision: &Decision) -> io::Result<()> {
    match decision {
        Decision::Safe { k, point } => {
            let loops = point.len();
            println!(rt; "safe at {k}, a point of {loops} loops")
        }
        Decision::Unsafe { k, found } => {
            let check = found.check;
            println!(rt; "unsafe at {k}, check {check}")
        }
        Decision::Terminating { k, point, ranks } => {
            let (loops, lists) = (point.len(), ranks.len());
            println!(rt; "terminating at {k}, a point of {loops} loops, {lists} lists")
        }
        Decision::Unwind { k } => println!(rt; "no answer up to {k}"),
        Decision::Size { k } => println!(rt; "too large at {k}"),
    }
}

fn ask(rt: &impl Print, alloc: Global, plan: Plan, mode: Mode) -> io::Result<()> {
    let mut engine = Scripted::new(plan);
    let decision = decide(alloc, &mut engine, 8, mode)?;
    show(rt, &decision)
}

fn main(rt: HostRuntime) -> io::Result<()> {
    let alloc = rt.alloc();
    let never = Plan {
        too_large: 0,
        breaks: 0,
        proves: 0,
        ranked: 0,
    };
    for mode in [Mode::Safety, Mode::Termination] {
        ask(&rt, alloc, never, mode)?;
        ask(&rt, alloc, Plan { proves: 3, ..never }, mode)?;
        ask(&rt, alloc, Plan { ranked: 8, ..never }, mode)?;
        ask(
            &rt,
            alloc,
            Plan {
                breaks: 2,
                proves: 2,
                ..never
            },
            mode,
        )?;
        ask(
            &rt,
            alloc,
            Plan {
                too_large: 4,
                breaks: 4,
                ranked: 5,
                ..never
            },
            mode,
        )?;
        ask(
            &rt,
            alloc,
            Plan {
                too_large: 9,
                proves: 9,
                ranked: 9,
                ..never
            },
            mode,
        )?;
    }
    Ok(())
}
