//! Asks made-up engines for rankings, so that both answers of `rankings` are seen.
#![tactic(auto)]

mod falling;

use falling::Falling;
use l2_bits::List;
use l2_program::LoopInfo;
use l2_rank::rankings;
use l2_syntax::Place;
use l2_templates::{Form, Point, Ranks};
use std::alloc::{AllocError, Global};
use std::io;

/// A loop of these variables, all of which it changes.
fn loop_of(alloc: Global, vars: &[u32]) -> Result<LoopInfo, AllocError> {
    let place = Place {
        offset: 0,
        line: 1,
        col: 1,
    };
    Ok(LoopInfo {
        place,
        function: 1,
        mods: List::new(Vec::from_slice(alloc, vars)?),
        vars: List::new(Vec::from_slice(alloc, vars)?),
    })
}

fn show(rt: &impl Print, ranks: &Ranks) -> io::Result<()> {
    for i in 0..ranks.len() {
        for form in ranks.get(i) {
            let (loop_number, first, second) = (i + 1, form.first, form.second);
            let sign = if form.plus { '+' } else { '-' };
            println!(rt; "loop {loop_number}: {sign}{first} {second}")?;
        }
    }
    Ok(())
}

fn ask(rt: &impl Print, alloc: Global, mut engine: Falling) -> io::Result<()> {
    let mut loops = Vec::new(alloc);
    loops.push(loop_of(alloc, &[1])?)?;
    loops.push(loop_of(alloc, &[1, 2])?)?;
    let point = Point::new(alloc);
    match rankings(alloc, &mut engine, &point, &loops)? {
        None => println!(rt; "a loop without a list"),
        Some(ranks) => show(rt, &ranks),
    }
}

fn main(rt: HostRuntime) -> io::Result<()> {
    let alloc = rt.alloc();
    let down = Form {
        first: 1,
        plus: false,
        second: 2,
        second_plus: true,
    };
    ask(&rt, alloc, Falling { at: 2, form: down })?;
    ask(&rt, alloc, Falling { at: 1, form: down })
}
