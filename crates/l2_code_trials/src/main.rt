//! Prints, of codes that are made by hand, the listing, what each pointer may be, and where each address may lead.
#![tactic(auto)]

mod codes;
mod made;

ghost use Rattle.l2_code.specs.Trees.{code_of};
ghost use Rattle.l2_code.specs.Sets.{IsResolved, family};

use crate::made::{INT, POINTER};
use l2_code::{Code, Operand, Sets};
use l2_deref::{Resolved, deref};
use l2_listing::listing;
use l2_points::points;
use l2_runs::{CellType, Member, index_of};
use std::alloc::Global;
use std::io;

/// The members of the set of an entry.
fn print_set(rt: &impl Print, sets: &Sets, entry: u32) -> io::Result<()> {
    let all = sets.sets.as_slice();
    if let Some(index) = index_of(entry) {
        if index < all.len() {
            for member in all[index].members.as_slice() {
                match *member {
                    Member::Null => print!(rt; " null")?,
                    Member::Invalid => print!(rt; " invalid")?,
                    Member::Object(object) => print!(rt; " {object}")?,
                }
            }
        }
    }
    println!(rt; "")
}

/// The cells of a type at which an address in a temporary may act.
fn print_candidates(
    rt: &impl Print,
    alloc: Global,
    resolved: &Resolved<'_>,
    ty: CellType,
    temp: u32,
) -> io::Result<()> {
    let candidates = resolved.candidates(alloc, ty, Operand::Temp(temp))?;
    for candidate in candidates.as_slice() {
        let object = candidate.object;
        let offset = candidate.offset;
        print!(rt; " {object}+{offset}")?;
    }
    Ok(())
}

fn print_temps(rt: &impl Print, alloc: Global, resolved: &Resolved<'_>) -> io::Result<()> {
    let mut temp: u32 = 0;
    for entry in resolved.sets.temps.as_slice() {
        temp = temp.saturating_add(1);
        print!(rt; "t{temp} may be")?;
        print_set(rt, resolved.sets, *entry)?;
        print!(rt; "  pointers at")?;
        print_candidates(rt, alloc, resolved, POINTER, temp)?;
        print!(rt; "; numbers at")?;
        print_candidates(rt, alloc, resolved, INT, temp)?;
        println!(rt; "")?;
    }
    Ok(())
}

fn show(rt: &impl Print, alloc: Global, name: &str, code: &Code) -> io::Result<()> {
    println!(rt; "{name}")?;
    let text = String::from_utf8_lossy(alloc, listing(alloc, code)?.as_slice())?;
    print!(rt; "{text}")?;
    let sets = points(alloc, code)?;
    let mut object: u32 = 0;
    for entry in sets.objects.as_slice() {
        object = object.saturating_add(1);
        print!(rt; "{object} may hold")?;
        print_set(rt, &sets, *entry)?;
    }
    let resolved = deref(code, &sets);
    print_temps(rt, alloc, &resolved)
}

fn main(rt: HostRuntime) -> io::Result<()> {
    let alloc = rt.alloc();
    show(
        &rt,
        alloc,
        "a pointer to a pointer",
        &codes::pointer_to_pointer(alloc)?,
    )?;
    show(
        &rt,
        alloc,
        "a struct copied cell by cell",
        &codes::copied_struct(alloc)?,
    )?;
    show(
        &rt,
        alloc,
        "a static address",
        &codes::static_address(alloc)?,
    )?;
    show(&rt, alloc, "a null pointer", &codes::null(alloc)?)?;
    show(&rt, alloc, "one past the end", &codes::past_the_end(alloc)?)?;
    show(&rt, alloc, "a cycle of copies", &codes::cycle(alloc)?)?;
    show(
        &rt,
        alloc,
        "cells of a type",
        &codes::cells_of_a_type(alloc)?,
    )?;
    show(
        &rt,
        alloc,
        "a cycle through a pointer",
        &codes::cycle_through_a_pointer(alloc)?,
    )?;
    show(
        &rt,
        alloc,
        "a number of a struct",
        &codes::number_of_a_struct(alloc)?,
    )?;
    show(&rt, alloc, "a ring", &codes::ring(alloc)?)
}
