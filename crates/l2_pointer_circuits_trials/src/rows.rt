// One pointer: its tests, and its moves.
use crate::layout::{COUNT, INT, POINTER, Table, digit, number, pointer};
use l2_circuits::constant;
use l2_cnf::Lit;
use l2_pointer_circuits::{cells_bit, isnt_bit, live_bit, move_bit, moved_word, pointer_word};
use l2_runs::Member;
use std::alloc::{AllocError, Global};

/// Not Null, not Invalid, live, and which cells stand there: int, int and int, int and pointer, pointer.
fn tests(alloc: Global, table: &mut Table, a: &[Lit]) -> Result<[u64; 7], AllocError> {
    let Table {
        gates,
        code,
        set,
        flags,
    } = table;
    let null = isnt_bit(alloc, gates, Member::Null, set, a)?;
    let invalid = isnt_bit(alloc, gates, Member::Invalid, set, a)?;
    let live = live_bit(alloc, gates, flags, a)?;
    let one = cells_bit(alloc, gates, code, &[INT], set, a)?;
    let two = cells_bit(alloc, gates, code, &[INT, INT], set, a)?;
    let mixed = cells_bit(alloc, gates, code, &[INT, POINTER], set, a)?;
    let last = cells_bit(alloc, gates, code, &[POINTER], set, a)?;
    Ok([
        digit(null),
        digit(invalid),
        digit(live),
        digit(one),
        digit(two),
        digit(mixed),
        digit(last),
    ])
}

/// Whether the pointer may be moved by so many times two cells, and the selector and offset that it has then.
fn moves(alloc: Global, table: &mut Table, a: &[Lit], times: i128) -> Result<[u64; 3], AllocError> {
    let Table {
        gates,
        code,
        set,
        ..
    } = table;
    let b = constant(alloc, 96, times)?;
    let may = move_bit(alloc, gates, code, 2, set, a, &b)?;
    let word = moved_word(alloc, gates, 2, a, &b)?;
    let (selector, offset) = halves(&word);
    Ok([digit(may), selector, offset])
}

/// The selector and the offset of a word.
fn halves(word: &[Lit]) -> (u64, u64) {
    if word.len() == 34 {
        (number(&word[..17]), number(&word[17..]))
    } else {
        (9, 9)
    }
}

fn print_row(
    rt: &HostRuntime,
    alloc: Global,
    table: &mut Table,
    i: usize,
) -> Result<bool, AllocError> {
    let a = pointer_word(alloc, pointer(i))?;
    let t = tests(alloc, table, &a)?;
    let back = moves(alloc, table, &a, -1)?;
    let stay = moves(alloc, table, &a, 0)?;
    let on = moves(alloc, table, &a, 1)?;
    let (null, invalid, live) = (t[0], t[1], t[2]);
    let (one, two, mixed, last) = (t[3], t[4], t[5], t[6]);
    let first = print!(rt;
        "{i}: null {null}, invalid {invalid}, live {live}, cells {one} {two} {mixed} {last}"
    );
    Ok(
        first.is_ok()
            && print_move(rt, &back)
            && print_move(rt, &stay)
            && print_move(rt, &on)
            && println!(rt; "").is_ok(),
    )
}

fn print_move(rt: &HostRuntime, m: &[u64; 3]) -> bool {
    let may = m[0];
    let selector = m[1];
    let offset = m[2];
    print!(rt; ", {may} {selector}+{offset}").is_ok()
}

pub fn print_rows(rt: &HostRuntime, alloc: Global, table: &mut Table) -> Result<bool, AllocError> {
    for i in 0..COUNT {
        if !print_row(rt, alloc, table, i)? {
            return Ok(false);
        }
    }
    Ok(true)
}
