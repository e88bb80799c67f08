//! Prints, of codes by hand that are what texts are lowered to, the clauses of their only goal, or the numbers of variables, clauses and
//! goals, and a digest of all clauses.
#![tactic(auto)]

mod loops;
mod made;
mod paths;

ghost use Rattle.std.specs.Prelude.{IfOk};
ghost use Rattle.l2_code.specs.Sets.{AllRise};

use crate::made::Made;
use l2_cnf::ClauseList;
use l2_code::{Code, Sets};
use l2_digest::digest;
use l2_goals::{GoalError, Goals, goals_of};
use l2_points::points;
use l2_templates::{Form, LoopPoint, Point, Ranks, Row, RowList};
use std::alloc::{AllocError, Global};
use std::io;

/// What is asked of a code.
#[derive(Drop)]
struct Asked {
    copies: u32,
    point: Point,
    /// The rankings, where termination is asked for.
    ranks: Option<Ranks>,
}

fn form(plus: bool, object: u32) -> Form {
    Form {
        first: object,
        plus,
        second: 0,
        second_plus: true,
    }
}

fn row(bound: i128, plus: bool, object: u32) -> Row {
    Row {
        form: form(plus, object),
        bound: Some(bound),
    }
}

fn boxed(
    alloc: Global,
    copies: u32,
    point: Point,
    ranks: Option<Ranks>,
) -> Result<Box<Asked>, AllocError> {
    let asked = Asked {
        copies,
        point,
        ranks,
    };
    Ok(Box::new(alloc, asked)?)
}

fn of_no_loop(alloc: Global) -> Result<Box<Asked>, AllocError> {
    boxed(alloc, 1, Point::new(alloc), None)
}

/// So many loops that aren't reached.
fn at_bottom(alloc: Global, copies: u32, loops: u32) -> Result<Box<Asked>, AllocError> {
    let mut point = Point::new(alloc);
    for _ in 0..loops {
        point.push(LoopPoint::Bottom)?;
    }
    boxed(alloc, copies, point, None)
}

fn point_of(alloc: Global, rows: &[Row]) -> Result<Point, AllocError> {
    let mut list = RowList::new(alloc);
    for row in rows {
        list.push(row.form, row.bound)?;
    }
    let mut point = Point::new(alloc);
    point.push(LoopPoint::Rows(list))?;
    Ok(point)
}

/// One loop with these rows.
fn with_rows(alloc: Global, copies: u32, rows: &[Row]) -> Result<Box<Asked>, AllocError> {
    let point = point_of(alloc, rows)?;
    boxed(alloc, copies, point, None)
}

/// One loop with these rows and this ranking.
fn ranked(
    alloc: Global,
    copies: u32,
    rows: &[Row],
    forms: &[Form],
) -> Result<Box<Asked>, AllocError> {
    let point = point_of(alloc, rows)?;
    let mut ranks = Ranks::new(alloc);
    ranks.push(forms.to_vec(alloc)?)?;
    boxed(alloc, copies, point, Some(ranks))
}

/// The texts whose codes are made.
#[derive(Clone, Copy)]
enum Text {
    Either,
    Chosen,
    Both,
    Shifted,
    Divided,
    PointerOfTwo,
    CellOfArray,
    Nested,
    TwoCounters,
    Down,
    Narrow,
    Flag,
    Written,
    WrittenChecked,
    Counted,
}

fn fill(text: Text, made: &mut Made) -> Result<(), AllocError> {
    match text {
        Text::Either => paths::either(made),
        Text::Chosen => paths::chosen(made),
        Text::Both => paths::both(made),
        Text::Shifted => paths::shifted(made),
        Text::Divided => paths::divided(made),
        Text::PointerOfTwo => paths::pointer_of_two(made),
        Text::CellOfArray => paths::cell_of_array(made),
        Text::Nested => loops::nested(made),
        Text::TwoCounters => loops::two_counters(made),
        Text::Down => loops::down(made),
        Text::Narrow => loops::narrow(made),
        Text::Flag => loops::flag(made),
        Text::Written => loops::written(made, false),
        Text::WrittenChecked => loops::written(made, true),
        Text::Counted => loops::counted(made),
    }
}

fn code_of(alloc: Global, text: Text) -> Result<Box<Code>, AllocError> {
    let mut made = Made::new(alloc);
    fill(text, &mut made)?;
    made.code()
}

fn sets_of(alloc: Global, code: &Code) -> Result<Sets, AllocError>
    ensures { IfOk result (λ s. AllRise s.sets) }
{
    points(alloc, code)
}

/// The formulas of a text's code; none where it is too large.
fn goals(alloc: Global, text: Text, asked: &Asked) -> Result<Option<Goals>, AllocError> {
    let code = code_of(alloc, text)?;
    let sets = sets_of(alloc, &code)?;
    let ranks = asked.ranks.as_ref();
    match goals_of(alloc, &code, &sets, asked.copies, &asked.point, ranks) {
        Ok(goals) => Ok(Some(goals)),
        Err(GoalError::TooLarge) => Ok(None),
        Err(GoalError::NoMemory) => Err(AllocError),
    }
}

fn print_clauses(rt: &impl Print, list: &ClauseList) -> io::Result<()> {
    for i in 0..list.len() {
        print!(rt; " ")?;
        for literal in list.clause(i) {
            let variable = literal.var();
            if literal.is_positive() {
                print!(rt; " {variable}")?;
            } else {
                print!(rt; " -{variable}")?;
            }
        }
        println!(rt; " 0")?;
    }
    Ok(())
}

/// The clauses of a code that has one goal.
fn show(rt: &impl Print, alloc: Global, name: &str, text: Text) -> io::Result<()> {
    println!(rt; "{name}")?;
    let asked = of_no_loop(alloc)?;
    match goals(alloc, text, &asked)? {
        Some(goals) => {
            print_clauses(rt, &goals.base)?;
            print_clauses(rt, &goals.last)
        }
        None => println!(rt; "too large"),
    }
}

/// The numbers of a code's formulas.
fn count(
    rt: &impl Print,
    alloc: Global,
    name: &str,
    text: Text,
    asked: Box<Asked>,
) -> io::Result<()> {
    match goals(alloc, text, &asked)? {
        Some(goals) => {
            let variables = goals.variables;
            let clauses = goals.base.len();
            let count = goals.last.len();
            let digest = digest(&goals.base, &goals.last);
            println!(rt;
                "{name}: variables {variables} clauses {clauses} goals {count} digest {digest:x}"
            )
        }
        None => println!(rt; "{name}: too large"),
    }
}

fn clauses(rt: &impl Print, alloc: Global) -> io::Result<()> {
    show(rt, alloc, "c || !c", Text::Either)?;
    show(rt, alloc, "c", Text::Chosen)?;
    show(rt, alloc, "a & b", Text::Both)
}

fn of_path(rt: &impl Print, alloc: Global, name: &str, text: Text) -> io::Result<()> {
    let asked = of_no_loop(alloc)?;
    count(rt, alloc, name, text, asked)
}

fn of_paths(rt: &impl Print, alloc: Global) -> io::Result<()> {
    of_path(rt, alloc, "chosen", Text::Chosen)?;
    of_path(rt, alloc, "shift", Text::Shifted)?;
    of_path(rt, alloc, "quotient", Text::Divided)?;
    of_path(rt, alloc, "pointer of two", Text::PointerOfTwo)?;
    of_path(rt, alloc, "cell of an array", Text::CellOfArray)
}

fn of_loops(rt: &impl Print, alloc: Global) -> io::Result<()> {
    let asked = at_bottom(alloc, 2, 2)?;
    count(rt, alloc, "nested", Text::Nested, asked)?;
    let asked = at_bottom(alloc, 3, 1)?;
    count(rt, alloc, "two counters", Text::TwoCounters, asked)?;
    let asked = with_rows(alloc, 2, &[row(2, true, 1), row(0, false, 1)])?;
    count(rt, alloc, "down", Text::Down, asked)?;
    let asked = with_rows(alloc, 1, &[row(0, false, 2)])?;
    count(rt, alloc, "narrow", Text::Narrow, asked)
}

fn of_flag(rt: &impl Print, alloc: Global) -> io::Result<()> {
    let bounds = [row(0, true, 1), row(0, false, 1)];
    let asked = ranked(alloc, 1, &bounds, &[form(true, 1)])?;
    count(rt, alloc, "flag", Text::Flag, asked)
}

fn of_written(rt: &impl Print, alloc: Global) -> io::Result<()> {
    let asked = with_rows(alloc, 3, &[])?;
    count(rt, alloc, "written", Text::Written, asked)?;
    let bounds = [
        row(1, true, 1),
        row(-1, false, 1),
        row(3, true, 3),
        row(-1, false, 3),
    ];
    let asked = ranked(alloc, 1, &bounds, &[form(false, 1), form(false, 3)])?;
    count(
        rt,
        alloc,
        "written, with overflow",
        Text::WrittenChecked,
        asked,
    )
}

fn of_counted(rt: &impl Print, alloc: Global) -> io::Result<()> {
    let asked = with_rows(alloc, 3, &[row(3, true, 1), row(-1, false, 1)])?;
    count(rt, alloc, "counted", Text::Counted, asked)
}

fn main(rt: HostRuntime) -> io::Result<()> {
    let alloc = rt.alloc();
    clauses(&rt, alloc)?;
    of_paths(&rt, alloc)?;
    of_loops(&rt, alloc)?;
    of_flag(&rt, alloc)?;
    of_written(&rt, alloc)?;
    of_counted(&rt, alloc)
}
