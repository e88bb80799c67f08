// Steps as text: what each does, then its operands in their order.

use l2_code::Operand;
use l2_runs::CellValue;
use l2_ssa::{Event, Flag, Goal, Step};
use std::alloc::{AllocError, Global};

fn operand(alloc: Global, a: Operand) -> Result<String, AllocError> {
    match a {
        Operand::Temp(n) => format!(in alloc; "n{n}"),
        Operand::Constant(CellValue::Number(n)) => format!(in alloc; "{n}"),
        Operand::Constant(CellValue::Null) => format!(in alloc; "null"),
        Operand::Constant(CellValue::Invalid) => format!(in alloc; "invalid"),
        Operand::Constant(CellValue::At { object, offset }) => {
            format!(in alloc; "o{object}+{offset}")
        }
    }
}

fn list(alloc: Global, name: &str, all: &[Operand]) -> Result<String, AllocError> {
    let mut text = format!(in alloc; "{name}")?;
    for a in all {
        let one = operand(alloc, *a)?;
        text.push_str(format!(in alloc; " {one}")?.as_str())?;
    }
    Ok(text)
}

fn flags(alloc: Global, name: String, all: &[Flag]) -> Result<String, AllocError> {
    let mut text = name;
    for flag in all {
        let live = operand(alloc, flag.live)?;
        let object = flag.object;
        text.push_str(format!(in alloc; " {object}:{live}")?.as_str())?;
    }
    Ok(text)
}

/// A step's line, without its name.
pub fn step(alloc: Global, step: &Step<'_>) -> Result<String, AllocError> {
    match step {
        Step::Choose(s) => list(alloc, "choose", &[**s]),
        Step::Take(s) => list(alloc, "take", &[s.path]),
        Step::Half(s) => list(alloc, "half", &[**s]),
        Step::Point(s) => list(alloc, "point", &[s.path, s.selector, s.offset]),
        Step::Among(s) => list(alloc, "among", &[s.path, s.selector, s.offset]),
        Step::Compute(s) => list(alloc, "compute", &[s.path, s.left, s.right]),
        Step::Alive(s) => {
            let name = list(alloc, "alive", &[s.path, s.pointer])?;
            flags(alloc, name, s.flags.as_slice())
        }
        Step::Pick(s) => list(alloc, "pick", &[s.path, s.pointer, s.there, s.elsewhere]),
        Step::Row(s) => list(alloc, "row", s.vars.as_slice()),
        Step::Lower(s) => list(alloc, "lower", s.now.as_slice()),
        Step::Apart(s) => list(alloc, "apart", &[s.path, s.left, s.right]),
        Step::Both(s) => list(alloc, "both", &[s.left, s.right]),
        Step::But(s) => list(alloc, "but", &[s.left, s.right]),
        Step::Either(s) => list(alloc, "either", &[s.left, s.right]),
        Step::Merge(s) => list(alloc, "merge", &[s.path, s.entry, s.brought, s.own]),
    }
}

/// An event's line.
pub fn event(alloc: Global, event: Event) -> Result<String, AllocError> {
    let literal = operand(alloc, event.literal)?;
    match event.goal {
        Goal::Row(l, row) => format!(in alloc; "loop {l} row {row}: {literal}"),
        Goal::Rank(l) => format!(in alloc; "loop {l} ranking: {literal}"),
        Goal::Check(check) => format!(in alloc; "check {check}: {literal}"),
    }
}
