//! Prints listings and weights of codes that are made by hand.
#![tactic(auto)]

mod every;
mod parts;
mod texts;

ghost use Rattle.std.specs.Prelude.{◌≡◌, IfOk};
ghost use Rattle.l2_code.specs.Sets.{AllRise};

use l2_bits::List;
use l2_code::{Code, PointsTo, Sets};
use l2_listing::listing;
use l2_runs::Member;
use l2_size::size;
use std::alloc::{AllocError, Global};
use std::io;

/// Sets by which temporaries 1 and 2 may be Null or in any of three objects, and no other one points anywhere.
fn sets(alloc: Global) -> Result<Sets, AllocError>
    ensures { IfOk result (λ s. AllRise s.sets) }
{
    let members = vec![in alloc;
        Member::Null,
        Member::Object(1),
        Member::Object(2),
        Member::Object(3),
    ]?;
    let set = PointsTo {
        members: List::new(members),
    };
    let mut all = Vec::new(alloc);
    all.push(set)?;
    Ok(Sets {
        sets: List::new(all),
        objects: parts::list(alloc, &[0, 1, 0])?,
        temps: parts::list(alloc, &[1, 1])?,
    })
}

/// A listing, and what the code weighs with one, two and 64 copies of each turn, where each loop has three rows.
fn show(rt: &impl Print, alloc: Global, name: &str, code: &Code) -> io::Result<()> {
    println!(rt; "{name}")?;
    let text = String::from_utf8_lossy(alloc, listing(alloc, code)?.as_slice())?;
    print!(rt; "{text}")?;
    let sets = sets(alloc)?;
    for copies in [1, 2, 64, 4_294_967_295] {
        let weight = size(alloc, code, &sets, copies, &[3, 3, 3])?;
        println!(rt; "weight with {copies} copies: {weight}")?;
    }
    Ok(())
}

fn main(rt: HostRuntime) -> io::Result<()> {
    let alloc = rt.alloc();
    show(&rt, alloc, "a choice and a check", &texts::chosen(alloc)?)?;
    show(&rt, alloc, "a loop", &texts::counted(alloc)?)?;
    show(&rt, alloc, "operators", &every::numbers(alloc)?)?;
    show(&rt, alloc, "pointers", &every::pointers(alloc)?)?;
    show(&rt, alloc, "tests", &every::tests(alloc)?)?;
    show(&rt, alloc, "jumps and loops", &every::flow(alloc)?)
}
