use l2_bits::{List, Ty};
use l2_runs::{BinaryOperator, CellType, CellValue, UnaryOperator};

/// What names cells of the store.
#[derive(Drop)]
pub enum Lvalue {
    /// A variable, by its object's number.
    Object(u32),
}

/// An expression after checking. Each node says its type; conversions are nodes. A node has a number of a check for each
/// kind of check that it can break, 0 where there is none.
#[derive(Drop)]
pub enum Typed {
    /// A value of a cell's type.
    Constant(CellType, CellValue),
    /// `__VERIFIER_nondet_X()`: the next choice, as a number of the type.
    Choice(Ty),
    /// The value that a scalar lvalue of this type holds.
    Read(CellType, Lvalue),
    /// An operator on a number of the type, and its check of overflow. `!` gives `int`, `-` a number of the type.
    Unary(UnaryOperator, Ty, u32, Box<Typed>),
    /// An operator on numbers of the type, and its check of overflow. A comparison gives `int`, another operator a number
    /// of the type.
    Binary(BinaryOperator, Ty, u32, Box<Typed>, Box<Typed>),
    /// A number as one of this type.
    Convert(Ty, Box<Typed>),
    /// `a = b` of a scalar of this type, which gives the value written.
    Assign(CellType, Lvalue, Box<Typed>),
    /// `assert(e)`, with the number of its check. It gives nothing.
    Assert(u32, Box<Typed>),
}

/// A statement after checking. Objects, labels, loops and checks go by their numbers.
#[derive(Drop)]
pub enum Checked {
    /// `{ .. }`; the objects declared among these items die at its end, those of static storage aside.
    Block(Vec<Checked>),
    /// A declaration without an initialiser.
    Declare(u32),
    /// A declaration of static storage, which does nothing where it is reached.
    Static(u32),
    /// A declaration of a scalar with its initialiser.
    Initialise(u32, Typed),
    /// A label, before the item that it labels.
    Label(u32),
    /// An expression statement.
    Evaluate(Typed),
    If(Typed, Box<Checked>),
    IfElse(Typed, Box<Checked>, Box<Checked>),
    /// A `while` loop by its number, with the objects that its text names.
    While(u32, List<u32>, Typed, Box<Checked>),
    /// `return e;`.
    Return(Typed),
}
