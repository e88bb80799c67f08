// Places of reads and writes, and selectors and offsets of any pointer.
use crate::layout::{COUNT, Table, digit, number, pointer};
use l2_circuits::constant;
use l2_pointer_circuits::{among_bit, at_bit, pick_word, pointer_word};
use std::alloc::{AllocError, Global};

fn print_place(
    rt: &HostRuntime,
    alloc: Global,
    table: &mut Table,
    object: u32,
    offset: u32,
) -> Result<bool, AllocError> {
    let here = constant(alloc, 8, 7)?;
    let elsewhere = constant(alloc, 8, 4)?;
    for i in 0..COUNT {
        let a = pointer_word(alloc, pointer(i))?;
        let at = digit(at_bit(alloc, &mut table.gates, object, offset, &a)?);
        let word = pick_word(
            alloc,
            &mut table.gates,
            object,
            offset,
            &a,
            &here,
            &elsewhere,
        )?;
        let picked = number(&word);
        if print!(rt; " {at}{picked}").is_err() {
            return Ok(false);
        }
    }
    Ok(println!(rt; "").is_ok())
}

fn print_selector(
    rt: &HostRuntime,
    alloc: Global,
    table: &mut Table,
    selector: u32,
) -> Result<bool, AllocError> {
    let s = constant(alloc, 17, i128::from(selector))?;
    for i in 0..5u32 {
        let f = constant(alloc, 17, i128::from(i))?;
        let Table {
            gates,
            code,
            set,
            ..
        } = table;
        let among = digit(among_bit(alloc, gates, code, set, &s, &f)?);
        if print!(rt; "{among}").is_err() {
            return Ok(false);
        }
    }
    Ok(println!(rt; "").is_ok())
}

pub fn print_places(
    rt: &HostRuntime,
    alloc: Global,
    table: &mut Table,
) -> Result<bool, AllocError> {
    let places = print_place(rt, alloc, table, 1, 0)? && print_place(rt, alloc, table, 2, 0)?;
    if !places {
        return Ok(false);
    }
    for selector in 0..5u32 {
        if !print_selector(rt, alloc, table, selector)? {
            return Ok(false);
        }
    }
    Ok(true)
}
