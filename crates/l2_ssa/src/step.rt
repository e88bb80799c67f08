use l2_bits::{List, Ty};
use l2_code::{Computation, Operand};
use l2_runs::CellType;

/// The live flag of an object, by the object's number.
#[derive(Clone, Copy, Debug, PartialEq, Eq)]
pub struct Flag {
    pub object: u32,
    pub live: Operand,
}

/// A choice of this type.
#[derive(Clone, Copy)]
pub struct TakeStep {
    pub path: Operand,
    pub ty: Ty,
}

/// The pointer of a selector and an offset.
#[derive(Clone, Copy)]
pub struct PointStep {
    pub path: Operand,
    pub selector: Operand,
    pub offset: Operand,
}

/// Whether these are the selector and the offset of a pointer of the object's set.
#[derive(Clone, Copy)]
pub struct AmongStep {
    pub path: Operand,
    pub selector: Operand,
    pub offset: Operand,
    pub object: u32,
}

/// A computation of the code, and its operands as they are now, in their order; the second is 0 where it has but one. Where it
/// looks into a pointer, that is in the set of the operand that the code names there.
#[derive(Clone, Copy)]
pub struct ComputeStep<'a> {
    pub path: Operand,
    pub what: &'a Computation,
    pub left: Operand,
    pub right: Operand,
}

/// Whether no flag of the pointer's object is false.
#[derive(Drop)]
pub struct AliveStep {
    pub path: Operand,
    pub pointer: Operand,
    pub flags: List<Flag>,
}

/// `there` where the pointer is this object and offset, else `elsewhere`.
#[derive(Clone, Copy)]
pub struct PickStep {
    pub path: Operand,
    pub pointer: Operand,
    pub object: u32,
    pub offset: u32,
    pub ty: CellType,
    pub there: Operand,
    pub elsewhere: Operand,
}

/// This row of this loop, counted from 1, of these values.
#[derive(Drop)]
pub struct RowStep {
    pub path: Operand,
    pub of_loop: u32,
    pub row: u32,
    pub vars: List<Operand>,
}

/// Whether the ranking of this loop is lower from the old values to those of now.
#[derive(Drop)]
pub struct LowerStep {
    pub path: Operand,
    pub of_loop: u32,
    pub old: List<Operand>,
    pub now: List<Operand>,
}

/// Where the left is true, and the right isn't.
#[derive(Clone, Copy)]
pub struct ApartStep {
    pub path: Operand,
    pub left: Operand,
    pub right: Operand,
}

/// Two paths, or a path and a condition.
#[derive(Clone, Copy)]
pub struct PathStep {
    pub left: Operand,
    pub right: Operand,
}

/// At a label: the value that an entry brings, where its path is true, else the path's own.
#[derive(Clone, Copy)]
pub struct MergeStep {
    pub path: Operand,
    pub entry: Operand,
    pub ty: CellType,
    pub brought: Operand,
    pub own: Operand,
}

/// An equation, which gives a name its value: the step of this index in the list, counted from 0. An operand is a constant, or a
/// name, as the temporary of its number. The first operand of most is the path on which the step stands.
#[derive(Drop)]
pub enum Step<'a> {
    /// Whether a loop starts back.
    Choose(Box<Operand>),
    Take(Box<TakeStep>),
    /// The selector of any pointer, or its offset.
    Half(Box<Operand>),
    Point(Box<PointStep>),
    Among(Box<AmongStep>),
    Compute(Box<ComputeStep<'a>>),
    Alive(Box<AliveStep>),
    Pick(Box<PickStep>),
    Row(Box<RowStep>),
    Lower(Box<LowerStep>),
    Apart(Box<ApartStep>),
    /// Where both are true.
    Both(Box<PathStep>),
    /// Where the left alone is.
    But(Box<PathStep>),
    /// Where one is.
    Either(Box<PathStep>),
    Merge(Box<MergeStep>),
}
