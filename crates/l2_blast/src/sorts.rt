ghost use Rattle.std.specs.Prelude.{◌≡◌};
ghost use Rattle.l2_code.specs.Sets.{family};
ghost use Rattle.l2_ssa.specs.Views.{step_of, with_operands};
ghost use Rattle.l2_blast.specs.Sorts.{cell_width, width, sort_of, sort_of_computation, sort_of_operator, sort_of_pointers};
ghost use Rattle.l2_blast.specs.Words.{has_sign};
ghost use Rattle.l2_blast.specs.Kept.{sort_of_kept};

use l2_bits::Ty;
use l2_code::{Computation, Operator, PointerOperator, Sets};
use l2_runs::CellType;
use l2_ssa::Step;

/// What a word is of: 1 or 0, in so many bits, of which bit 0 alone may be true; a selector or an offset of a pointer; or what
/// cells of a type hold.
#[derive(Clone, Copy)]
pub enum Sort {
    Truth(u32),
    Part,
    Cell(CellType),
}

/// How many bits a cell's word has.
pub fn cell_width(ty: CellType) -> usize
    ensures { result ≡ cell_width ty }
{
    match ty {
        CellType::Integer(ty) => usize::from(ty.width),
        CellType::Pointer => 34,
    }
}

impl Sort {
    /// How many bits a word has.
    pub fn width(self) -> usize
        ensures { result ≡ width (sort_of_kept self) }
    {
        match self {
            Sort::Truth(width) => width as usize,
            Sort::Part => 17,
            Sort::Cell(ty) => cell_width(ty),
        }
    }

    /// Whether a longer word repeats the top bit.
    pub fn has_sign(self) -> bool
        ensures { result ≡ has_sign (sort_of_kept self) }
    {
        match self {
            Sort::Truth(_) => true,
            Sort::Part => false,
            Sort::Cell(CellType::Integer(ty)) => ty.signed,
            Sort::Cell(CellType::Pointer) => false,
        }
    }
}

fn of_operator(op: Operator, ty: Ty) -> Sort
    ensures { sort_of_kept result ≡ sort_of_operator op ty }
{
    match op {
        Operator::Eq | Operator::Ne | Operator::Lt | Operator::Le => Sort::Truth(32),
        Operator::Add | Operator::Sub | Operator::Mul | Operator::Div | Operator::Rem => {
            Sort::Cell(CellType::Integer(ty))
        }
        Operator::Shl | Operator::Shr | Operator::And | Operator::Or | Operator::Xor => {
            Sort::Cell(CellType::Integer(ty))
        }
    }
}

fn of_pointers(op: PointerOperator) -> Sort
    ensures { sort_of_kept result ≡ sort_of_pointers op }
{
    match op {
        PointerOperator::Diff => Sort::Cell(CellType::Integer(Ty::LONG)),
        PointerOperator::Eq | PointerOperator::Ne => Sort::Truth(32),
        PointerOperator::Lt | PointerOperator::Le => Sort::Truth(32),
    }
}

fn of_computation(what: &Computation) -> Sort
    ensures { sort_of_kept result ≡ sort_of_computation what.now }
{
    match what {
        Computation::Numbers(op, ty, _, _) => of_operator(*op, *ty),
        Computation::Convert(ty, _) => Sort::Cell(CellType::Integer(*ty)),
        Computation::Move(_, _, _) => Sort::Cell(CellType::Pointer),
        Computation::Pointers(op, _, _) => of_pointers(*op),
        Computation::Passes(_) => Sort::Truth(32),
    }
}

/// What the name of a step is.
pub fn sort_of(step: &Step, sets: &Sets) -> Sort
    ensures { sort_of_kept result ≡ sort_of (step_of (family sets.now) step.now) }
{
    match step {
        Step::Choose(_) => Sort::Truth(1),
        Step::Take(s) => Sort::Cell(CellType::Integer(s.ty)),
        Step::Half(_) => Sort::Part,
        Step::Point(_) => Sort::Cell(CellType::Pointer),
        Step::Among(_) => Sort::Truth(1),
        Step::Compute(s) => of_computation(s.what),
        Step::Alive(_) => Sort::Truth(32),
        Step::Pick(s) => Sort::Cell(s.ty),
        Step::Row(_) => Sort::Truth(1),
        Step::Lower(_) => Sort::Truth(1),
        Step::Apart(_) => Sort::Truth(1),
        Step::Both(_) => Sort::Truth(1),
        Step::But(_) => Sort::Truth(1),
        Step::Either(_) => Sort::Truth(1),
        Step::Merge(s) => Sort::Cell(s.ty),
    }
}
