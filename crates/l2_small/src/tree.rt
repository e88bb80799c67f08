use l2_bits::List;
use l2_runs::{BinaryOperator, UnaryOperator};
use l2_syntax::{Name, Place, Token};

/// An expression as it is spelt, parentheses and all. Words carry their number and their place.
#[derive(Drop)]
pub enum SmallExpr {
    Name(u32, Place),
    Number(i128),
    /// `__VERIFIER_nondet_int()`, with the place of the word.
    Choice(Place),
    Parenthesised(Box<SmallExpr>),
    Unary(UnaryOperator, Box<SmallExpr>),
    Binary(BinaryOperator, Box<SmallExpr>, Box<SmallExpr>),
}

/// A statement or a declaration as it is spelt. A loop carries the place of its keyword.
#[derive(Drop)]
pub enum SmallStmt {
    /// `{ items }`.
    Block(Vec<SmallStmt>),
    /// `int NAME ;`.
    Declare(u32, Place),
    /// `int NAME = e ;`.
    Initialise(u32, Place, SmallExpr),
    /// `NAME = e ;`.
    Assign(u32, Place, SmallExpr),
    /// `if ( e ) s`.
    If(SmallExpr, Box<SmallStmt>),
    /// `if ( e ) s else t`.
    IfElse(SmallExpr, Box<SmallStmt>, Box<SmallStmt>),
    /// `while ( e ) s`.
    While(Place, SmallExpr, Box<SmallStmt>),
    /// `assert ( e ) ;`, with the place of the word.
    Assert(Place, SmallExpr),
    /// `return e ;`.
    Return(SmallExpr),
}

/// A text as it is spelt: the place of the name `main`, its body's items, the names that words are numbered by, and the
/// text's constants.
#[derive(Drop)]
pub struct SmallUnit {
    pub main: Place,
    pub items: Vec<SmallStmt>,
    pub names: List<Name>,
    pub constants: List<Token>,
}
