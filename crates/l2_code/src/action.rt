use l2_bits::{Op, Ty};
use l2_runs::{CellType, CellValue};

/// An operator on two numbers of a type. A comparison gives 1 or 0 of type `int`.
#[derive(Clone, Copy, Debug, PartialEq, Eq)]
pub enum Operator {
    Add,
    Sub,
    Mul,
    Div,
    Rem,
    Shl,
    Shr,
    And,
    Or,
    Xor,
    Eq,
    Ne,
    Lt,
    Le,
}

/// An operator on two pointers: their difference in cells, of type `long`, or a comparison, of type `int`.
#[derive(Clone, Copy, Debug, PartialEq, Eq)]
pub enum PointerOperator {
    Diff,
    Eq,
    Ne,
    Lt,
    Le,
}

/// What an instruction reads: a constant, or the temporary of this number.
#[derive(Clone, Copy, Debug, PartialEq, Eq)]
pub enum Operand {
    Constant(CellValue),
    Temp(u32),
}

/// What a check asks. Its value is 1 where the check doesn't break, else 0, of type `int`.
#[derive(Clone, Copy)]
pub enum Test {
    /// `okdiv`: the quotient is a value of the type.
    Division(Ty, Operand, Operand),
    /// `okshift`: the amount is from 0 to below the type's width.
    Shift(Ty, Operand),
    /// `okover`: the exact result is a value of the type.
    Overflow(Op, Ty, Operand, Operand),
    /// `okindex`: the index is from 0 to below this length.
    Index(u32, Operand),
    /// `okindexend`: the index is from 0 to this length.
    IndexEnd(u32, Operand),
    /// `oknull`: the pointer isn't Null.
    Null(Operand),
    /// `okinvalid`: the pointer isn't Invalid.
    Invalid(Operand),
    /// `oklive`: the pointer's object is live.
    Live(Operand),
    /// `okcells`: the cells of the pointed type of this number stand at the pointer.
    Cells(u32, Operand),
    /// `okpadd`: the pointer, moved by so many times so many cells, stays in its object or one past its end.
    Move(i64, Operand, Operand),
    /// `oksame`: both pointers are of one object.
    Same(Operand, Operand),
}

/// What a temporary is computed from, without a look at any cell.
#[derive(Clone, Copy)]
pub enum Computation {
    Numbers(Operator, Ty, Operand, Operand),
    /// `conv`: a number as one of this type.
    Convert(Ty, Operand),
    /// `padd`: a pointer, moved by so many cells times a number.
    Move(i64, Operand, Operand),
    Pointers(PointerOperator, Operand, Operand),
    Passes(Test),
}

/// An instruction, with the parts of its text in their order. A temporary, an object, a check and a pointed type go by
/// their numbers, a jump by how many blocks lie between it and the block that it leaves.
#[derive(Clone, Copy)]
pub enum Action {
    /// `tN = ..` of the operators and tests.
    Compute(u32, Computation),
    /// `tN = read TYPE A`.
    Read(u32, CellType, Operand),
    /// `write TYPE A B`.
    Write(CellType, Operand, Operand),
    /// `tN = choice TYPE`.
    Choice(u32, Ty),
    Assume(Operand),
    Check(u32, Operand),
    /// Leaves the block where the operand is 0.
    Unless(Operand, u32),
    Goto(u32),
    Live(u32),
    Dead(u32),
    End,
}
