//! Blasts equations of each form, so that every call that takes memory is seen to come to its answer, and prints the words.
#![tactic(auto)]

use l2_bits::{List, Op, Ty};
use l2_blast::{Fill, Words, blast};
use l2_circuits::truth;
use l2_cnf::Lit;
use l2_code::{
    Code, CodeObject, Computation, Operand, Operator, Pointed, PointerOperator, PointsTo, Sets,
    Test,
};
use l2_gates::Gates;
use l2_runs::{CellType, CellValue, Member};
use l2_ssa::{
    AliveStep, AmongStep, ApartStep, ComputeStep, Flag, LowerStep, MergeStep, PathStep, PickStep,
    PointStep, RowStep, Ssa, Step, TakeStep,
};
use std::alloc::{AllocError, Global};
use std::process::ExitCode;

/// Rows of which nothing is known, and rankings that are lower.
struct Plain;

impl Fill for Plain {
    ghost use Rattle.l2_gates.specs.Gates.{T, known, fresh};

    ghost fill = { λ p. record { row = λ l i words m. fresh m; lower = λ l old now m. known T m } };

    fn row(
        &self,
        _alloc: Global,
        gates: &mut Gates,
        _of_loop: u32,
        _row: u32,
        _vars: &[Vec<Lit>],
    ) -> Result<Lit, AllocError> {
        gates.fresh()
    }

    fn lower(
        &self,
        _alloc: Global,
        _gates: &mut Gates,
        _of_loop: u32,
        _old: &[Vec<Lit>],
        _now: &[Vec<Lit>],
    ) -> Result<Lit, AllocError> {
        Ok(truth())
    }
}

fn number(value: i128) -> Operand {
    Operand::Constant(CellValue::Number(value))
}

fn list<T: Drop>(alloc: Global, item: T) -> Result<List<T>, AllocError> {
    let mut items = Vec::new(alloc);
    items.push(item)?;
    Ok(List::new(items))
}

/// An object of one pointer cell.
fn object(alloc: Global) -> Result<CodeObject, AllocError> {
    Ok(CodeObject {
        name: list(alloc, b'p')?,
        is_static: true,
        hidden: false,
        cells: list(alloc, CellType::Pointer)?,
        start: list(alloc, CellValue::Null)?,
    })
}

fn code(alloc: Global) -> Result<Code, AllocError> {
    Ok(Code {
        objects: list(alloc, object(alloc)?)?,
        pointed: list(
            alloc,
            Pointed {
                cells: list(alloc, CellType::Pointer)?,
            },
        )?,
        checks: List::new(Vec::new(alloc)),
        loops: List::new(Vec::new(alloc)),
        temps: 1,
        items: Vec::new(alloc),
    })
}

/// Null and the object, for the object's cell and the temporary.
fn sets(alloc: Global) -> Result<Sets, AllocError> {
    let mut members = Vec::new(alloc);
    members.push(Member::Null)?;
    members.push(Member::Object(1))?;
    Ok(Sets {
        sets: list(
            alloc,
            PointsTo {
                members: List::new(members),
            },
        )?,
        objects: list(alloc, 1)?,
        temps: list(alloc, 1)?,
    })
}

/// The computations of the code that the equations name.
fn computations() -> [Computation; 9] {
    let pointer = Operand::Temp(1);
    [
        Computation::Numbers(Operator::Lt, Ty::INT, number(0), number(5)),
        Computation::Numbers(Operator::Mul, Ty::CHAR, number(0), number(3)),
        Computation::Convert(Ty::LONG, number(0)),
        Computation::Move(1, pointer, number(0)),
        Computation::Pointers(PointerOperator::Eq, pointer, number(0)),
        Computation::Passes(Test::Null(pointer)),
        Computation::Passes(Test::Cells(1, pointer)),
        Computation::Passes(Test::Move(1, pointer, number(0))),
        Computation::Passes(Test::Overflow(Op::Add, Ty::INT, number(0), number(1))),
    ]
}

fn compute<'a>(
    alloc: Global,
    what: &'a Computation,
    path: Operand,
    left: Operand,
    right: Operand,
) -> Result<Step<'a>, AllocError> {
    let step = ComputeStep {
        path,
        what,
        left,
        right,
    };
    Ok(Step::Compute(Box::new(alloc, step)?))
}

fn path(alloc: Global, left: Operand, right: Operand) -> Result<Box<PathStep>, AllocError> {
    Ok(Box::new(alloc, PathStep { left, right })?)
}

/// A choice, and paths of a comparison with it.
fn push_paths<'a>(
    alloc: Global,
    steps: &mut Vec<Step<'a>>,
    what: &'a Computation,
) -> Result<(), AllocError> {
    let always = number(1);
    let take = TakeStep {
        path: always,
        ty: Ty::INT,
    };
    steps.push(Step::Take(Box::new(alloc, take)?))?;
    steps.push(compute(alloc, what, always, Operand::Temp(0), number(5))?)?;
    steps.push(Step::Choose(Box::new(alloc, always)?))?;
    steps.push(Step::Both(path(alloc, Operand::Temp(2), Operand::Temp(1))?))?;
    steps.push(Step::But(path(alloc, Operand::Temp(2), Operand::Temp(1))?))?;
    steps.push(Step::Either(path(alloc, Operand::Temp(3), Operand::Temp(4))?))?;
    let apart = ApartStep {
        path: Operand::Temp(3),
        left: Operand::Temp(1),
        right: Operand::Temp(2),
    };
    steps.push(Step::Apart(Box::new(alloc, apart)?))?;
    Ok(())
}

/// Any pointer, from name 7 on.
fn push_pointer(alloc: Global, steps: &mut Vec<Step>) -> Result<(), AllocError> {
    let always = number(1);
    steps.push(Step::Half(Box::new(alloc, always)?))?;
    steps.push(Step::Half(Box::new(alloc, always)?))?;
    let point = PointStep {
        path: always,
        selector: Operand::Temp(7),
        offset: Operand::Temp(8),
    };
    steps.push(Step::Point(Box::new(alloc, point)?))?;
    let among = AmongStep {
        path: always,
        selector: Operand::Temp(7),
        offset: Operand::Temp(8),
        object: 1,
    };
    steps.push(Step::Among(Box::new(alloc, among)?))?;
    let alive = AliveStep {
        path: Operand::Temp(10),
        pointer: Operand::Temp(9),
        flags: list(
            alloc,
            Flag {
                object: 1,
                live: Operand::Temp(2),
            },
        )?,
    };
    steps.push(Step::Alive(Box::new(alloc, alive)?))?;
    let pick = PickStep {
        path: Operand::Temp(10),
        pointer: Operand::Temp(9),
        object: 1,
        offset: 0,
        ty: CellType::Integer(Ty::INT),
        there: Operand::Temp(0),
        elsewhere: number(0),
    };
    steps.push(Step::Pick(Box::new(alloc, pick)?))?;
    Ok(())
}

/// Rows, and labels with and without an entry, from name 13 on.
fn push_rest(alloc: Global, steps: &mut Vec<Step>) -> Result<(), AllocError> {
    let row = RowStep {
        path: Operand::Temp(3),
        of_loop: 1,
        row: 1,
        vars: list(alloc, Operand::Temp(0))?,
    };
    steps.push(Step::Row(Box::new(alloc, row)?))?;
    let lower = LowerStep {
        path: Operand::Temp(3),
        of_loop: 1,
        old: list(alloc, Operand::Temp(0))?,
        now: list(alloc, number(7))?,
    };
    steps.push(Step::Lower(Box::new(alloc, lower)?))?;
    let merge = MergeStep {
        path: Operand::Temp(3),
        entry: Operand::Temp(4),
        ty: CellType::Integer(Ty::INT),
        brought: number(-1),
        own: Operand::Temp(0),
    };
    steps.push(Step::Merge(Box::new(alloc, merge)?))?;
    let dropped = MergeStep {
        path: Operand::Temp(3),
        entry: number(0),
        ty: CellType::Integer(Ty::INT),
        brought: number(-1),
        own: Operand::Temp(0),
    };
    steps.push(Step::Merge(Box::new(alloc, dropped)?))?;
    let passed = TakeStep {
        path: number(0),
        ty: Ty::CHAR,
    };
    steps.push(Step::Take(Box::new(alloc, passed)?))?;
    Ok(())
}

fn push_computations<'a>(
    alloc: Global,
    steps: &mut Vec<Step<'a>>,
    all: &'a [Computation; 9],
) -> Result<(), AllocError> {
    let x = Operand::Temp(0);
    let p = Operand::Temp(9);
    let always = number(1);
    let null = Operand::Constant(CellValue::Null);
    steps.push(compute(alloc, &all[1], always, Operand::Temp(17), number(3))?)?;
    steps.push(compute(alloc, &all[2], always, x, number(0))?)?;
    steps.push(compute(alloc, &all[3], always, p, x)?)?;
    steps.push(compute(alloc, &all[4], always, p, null)?)?;
    steps.push(compute(alloc, &all[5], always, p, number(0))?)?;
    steps.push(compute(alloc, &all[6], always, p, number(0))?)?;
    steps.push(compute(alloc, &all[7], always, p, x)?)?;
    steps.push(compute(alloc, &all[8], always, x, number(1))?)?;
    Ok(())
}

fn all_steps<'a>(alloc: Global, all: &'a [Computation; 9]) -> Result<Vec<Step<'a>>, AllocError> {
    let mut steps = Vec::new(alloc);
    push_paths(alloc, &mut steps, &all[0])?;
    push_pointer(alloc, &mut steps)?;
    push_rest(alloc, &mut steps)?;
    push_computations(alloc, &mut steps, all)?;
    Ok(steps)
}

fn shown(literal: Lit) -> i64 {
    let var = literal.var() as i64;
    if literal.is_positive() { var } else { 0 - var }
}

fn print_words(rt: &HostRuntime, words: &Words, names: u32) -> bool {
    for name in 0..names {
        let bits = words.bits(name);
        let count = bits.len();
        let first = shown(words.literal(Operand::Temp(name)));
        if println!(rt; "{name}: {count} bits from {first}").is_err() {
            return false;
        }
    }
    true
}

struct Blasted {
    words: Words,
    gates: Gates,
}

fn blast_all(
    alloc: Global,
    code: &Code,
    sets: &Sets,
    all: &[Computation; 9],
    gates: &mut Gates,
) -> Result<Words, AllocError> {
    let steps = all_steps(alloc, all)?;
    let ssa = Ssa {
        sets,
        steps,
        events: Vec::new(alloc),
        heads: Vec::new(alloc),
    };
    blast(alloc, code, &ssa, &Plain, gates)
}

fn make(alloc: Global) -> Result<Blasted, AllocError> {
    let code = code(alloc)?;
    let sets = sets(alloc)?;
    let all = computations();
    let mut gates = Gates::new(alloc)?;
    let words = blast_all(alloc, &code, &sets, &all, &mut gates)?;
    Ok(Blasted { words, gates })
}

fn print_all(rt: &HostRuntime, blasted: Blasted) -> bool {
    let Blasted { words, gates } = blasted;
    let variables = gates.variables();
    let clauses = gates.into_clauses();
    let count = clauses.len();
    print_words(rt, &words, 26) && println!(rt; "{variables} variables, {count} clauses").is_ok()
}

fn main(rt: HostRuntime) -> ExitCode {
    match make(rt.alloc()) {
        Ok(made) => ExitCode::from(u8::from(!print_all(&rt, made))),
        Err(_) => ExitCode::from(1),
    }
}
