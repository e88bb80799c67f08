// Two pointers: one object, differences and comparisons.
use crate::layout::{COUNT, Table, digit, number, pointer};
use l2_cnf::Lit;
use l2_code::PointerOperator;
use l2_pointer_circuits::{operator_word, pointer_word, same_bit};
use std::alloc::{AllocError, Global};

/// One object, equal, unequal, less, at most; and the difference as a number of 64 bits.
fn answers(alloc: Global, table: &mut Table, i: usize, j: usize) -> Result<[u64; 6], AllocError> {
    let gates = &mut table.gates;
    let a = pointer_word(alloc, pointer(i))?;
    let b = pointer_word(alloc, pointer(j))?;
    let same = same_bit(alloc, gates, &a, &b)?;
    let equal = operator_word(alloc, gates, PointerOperator::Eq, &a, &b)?;
    let differ = operator_word(alloc, gates, PointerOperator::Ne, &a, &b)?;
    let less = operator_word(alloc, gates, PointerOperator::Lt, &a, &b)?;
    let most = operator_word(alloc, gates, PointerOperator::Le, &a, &b)?;
    let between = operator_word(alloc, gates, PointerOperator::Diff, &a, &b)?;
    Ok([
        digit(same),
        number(&equal),
        number(&differ),
        number(&less),
        number(&most),
        number(&between),
    ])
}

fn print_pair(
    rt: &HostRuntime,
    alloc: Global,
    table: &mut Table,
    i: usize,
    j: usize,
) -> Result<bool, AllocError> {
    let p = answers(alloc, table, i, j)?;
    let (same, equal, differ) = (p[0], p[1], p[2]);
    let (less, most) = (p[3], p[4]);
    let between = p[5];
    if print!(rt; " {same}{equal}{differ}{less}{most}").is_err() {
        return Ok(false);
    }
    Ok(print_signed(rt, between))
}

/// A number of 64 bits with its sign.
fn print_signed(rt: &HostRuntime, bits: u64) -> bool {
    if bits >= 1 << 63 {
        let size = u64::MAX - bits + 1;
        print!(rt; "-{size}").is_ok()
    } else {
        print!(rt; "+{bits}").is_ok()
    }
}

fn print_line(
    rt: &HostRuntime,
    alloc: Global,
    table: &mut Table,
    i: usize,
) -> Result<bool, AllocError> {
    for j in 0..COUNT {
        if !print_pair(rt, alloc, table, i, j)? {
            return Ok(false);
        }
    }
    Ok(println!(rt; "").is_ok())
}

pub fn print_pairs(rt: &HostRuntime, alloc: Global, table: &mut Table) -> Result<bool, AllocError> {
    for i in 0..COUNT {
        if !print_line(rt, alloc, table, i)? {
            return Ok(false);
        }
    }
    Ok(true)
}
