// How many variables circuits over words of variables make.
use crate::layout::{INT, Table};
use l2_cnf::Lit;
use l2_code::PointerOperator;
use l2_gates::Gates;
use l2_pointer_circuits::{
    Flag, among_bit, cells_bit, isnt_bit, live_bit, move_bit, moved_word, operator_word, pick_word,
    same_bit,
};
use l2_runs::Member;
use std::alloc::{AllocError, Global};

fn word(alloc: Global, gates: &mut Gates, width: usize) -> Result<Vec<Lit>, AllocError> {
    let mut word = Vec::new(alloc);
    for i in 0..width {
        let bit = gates.fresh()?;
        word.push(bit)?;
    }
    Ok(word)
}

fn print_count(rt: &HostRuntime, table: &Table, name: &str) -> bool {
    let variables = table.gates.variables();
    println!(rt; "{name}: {variables}").is_ok()
}

/// Two pointers, and a number of 96 bits.
#[derive(Drop)]
struct Words {
    a: Vec<Lit>,
    b: Vec<Lit>,
    n: Vec<Lit>,
}

fn make_words(alloc: Global, gates: &mut Gates) -> Result<Words, AllocError> {
    let a = word(alloc, gates, 34)?;
    let b = word(alloc, gates, 34)?;
    let n = word(alloc, gates, 96)?;
    Ok(Words { a, b, n })
}

fn tests(
    rt: &HostRuntime,
    alloc: Global,
    table: &mut Table,
    w: &Words,
) -> Result<bool, AllocError> {
    let Table {
        gates,
        code,
        set,
        flags,
    } = table;
    isnt_bit(alloc, gates, Member::Null, set, &w.a)?;
    let live = gates.fresh()?;
    let more = gates.fresh()?;
    flags.push(Flag { object: 1, live })?;
    flags.push(Flag {
        object: 2,
        live: more,
    })?;
    live_bit(alloc, gates, &flags[2..], &w.a)?;
    cells_bit(alloc, gates, code, &[INT], set, &w.a)?;
    Ok(print_count(rt, table, "tests"))
}

fn moves(
    rt: &HostRuntime,
    alloc: Global,
    table: &mut Table,
    w: &Words,
) -> Result<bool, AllocError> {
    let Table {
        gates,
        code,
        set,
        ..
    } = table;
    moved_word(alloc, gates, 3, &w.a, &w.n)?;
    move_bit(alloc, gates, code, -3, set, &w.a, &w.n)?;
    Ok(print_count(rt, table, "moves"))
}

fn operators(
    rt: &HostRuntime,
    alloc: Global,
    table: &mut Table,
    w: &Words,
) -> Result<bool, AllocError> {
    let gates = &mut table.gates;
    same_bit(alloc, gates, &w.a, &w.b)?;
    operator_word(alloc, gates, PointerOperator::Eq, &w.a, &w.b)?;
    operator_word(alloc, gates, PointerOperator::Ne, &w.a, &w.b)?;
    operator_word(alloc, gates, PointerOperator::Lt, &w.a, &w.b)?;
    operator_word(alloc, gates, PointerOperator::Le, &w.a, &w.b)?;
    operator_word(alloc, gates, PointerOperator::Diff, &w.a, &w.b)?;
    Ok(print_count(rt, table, "operators"))
}

fn places(
    rt: &HostRuntime,
    alloc: Global,
    table: &mut Table,
    w: &Words,
) -> Result<bool, AllocError> {
    let Table {
        gates,
        code,
        set,
        ..
    } = table;
    pick_word(alloc, gates, 1, 2, &w.a, &w.b, &w.n)?;
    if w.a.len() == 34 {
        among_bit(alloc, gates, code, set, &w.a[..17], &w.a[17..])?;
    }
    Ok(print_count(rt, table, "places"))
}

pub fn print_counts(
    rt: &HostRuntime,
    alloc: Global,
    table: &mut Table,
) -> Result<bool, AllocError> {
    let words = make_words(alloc, &mut table.gates)?;
    let first = print_count(rt, table, "words")
        && tests(rt, alloc, table, &words)?
        && moves(rt, alloc, table, &words)?;
    Ok(first && operators(rt, alloc, table, &words)? && places(rt, alloc, table, &words)?)
}
