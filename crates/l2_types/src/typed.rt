use crate::types::CType;
use l2_bits::Ty;

/// What names cells of the store.
#[derive(Clone, Copy)]
pub enum Lvalue {
    /// A variable, by its object's number.
    Object(u32),
}

/// An operator that computes a number of its operands' type.
#[derive(Clone, Copy)]
pub enum Arithmetic {
    Multiply,
    Divide,
    Remainder,
    Add,
    Subtract,
    ShiftLeft,
    ShiftRight,
    BitAnd,
    BitXor,
    BitOr,
}

#[derive(Clone, Copy)]
pub enum Comparison {
    Less,
    LessEqual,
    Greater,
    GreaterEqual,
    Equal,
    NotEqual,
}

/// `&&` or `||`.
#[derive(Clone, Copy)]
pub enum Junction {
    And,
    Or,
}

/// An operator on one number.
#[derive(Clone, Copy)]
pub enum Negation {
    Negate,
    Complement,
    Not,
}

/// The numbers of the two checks of an arithmetic operator, each 0 where it has none: that of a division or a shift, and
/// that of overflow.
#[derive(Clone, Copy)]
pub struct Checks {
    pub defined: u32,
    pub overflow: u32,
}

/// Which value an assignment gives.
#[derive(Clone, Copy)]
pub enum Gives {
    Before,
    After,
}

/// An expression with its type. Operands have been converted.
#[derive(Drop)]
pub enum Typed {
    Constant(Ty, i128),
    /// The next choice.
    Choice(Ty),
    /// The value that an lvalue holds.
    Read(CType, Lvalue),
    /// The value, converted to the type.
    Convert(Ty, Box<Typed>),
    Unary(Negation, Ty, u32, Box<Typed>),
    Arithmetic(Arithmetic, Ty, Checks, Box<Typed>, Box<Typed>),
    Compare(Comparison, Ty, Box<Typed>, Box<Typed>),
    Join(Junction, Box<Typed>, Box<Typed>),
    Conditional(Box<Typed>, Box<Typed>, Box<Typed>),
    Comma(Box<Typed>, Box<Typed>),
    /// `a = b`, which gives the value written.
    Assign(Lvalue, Box<Typed>),
    /// `a op= b`, `++a` or `a++`: the lvalue's type, the type in which is computed, and the right operand.
    Update(Gives, Arithmetic, Ty, Ty, Checks, Lvalue, Box<Typed>),
    /// A call of a function by its number, with its arguments.
    Call(u32, Vec<Typed>),
    /// `assert(e)`, with the number of its check.
    Assert(u32, Box<Typed>),
    /// A call of a name that always fails, with the number of its check.
    Fail(u32),
    Assume(Box<Typed>),
    Exit(Box<Typed>),
    Abort,
    /// The value isn't used.
    Discard(Box<Typed>),
}
