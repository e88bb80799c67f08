// What a token begins.
use crate::operators::{
    AssignmentOperator, BinaryOperator, MemberOperator, UnaryOperator, UpdateOperator,
};
use l2_syntax::Scalar;

/// How an expression begins (C11 6.5.1, 6.5.3 and 6.5.4).
#[derive(Clone, Copy, Debug, PartialEq, Eq)]
pub enum Opening {
    Name(u32),
    Number(i128, Scalar),
    /// A string literal.
    Text,
    /// `(`, round an expression or the name of a type.
    Parenthesis,
    Sizeof,
    Unary(UnaryOperator),
    Update(UpdateOperator),
}

/// How an expression goes on behind an operand (C11 6.5.2 and 6.5.5 to 6.5.17).
#[derive(Clone, Copy, Debug, PartialEq, Eq)]
pub enum Continuation {
    /// `[`.
    Index,
    /// `(`.
    Call,
    Member(MemberOperator),
    Update(UpdateOperator),
    /// `?`.
    Conditional,
    Comma,
    Binary(BinaryOperator),
    Assign(AssignmentOperator),
}

/// How a statement begins that is neither a declaration nor an expression nor labelled by a name (C11 6.8).
#[derive(Clone, Copy, Debug, PartialEq, Eq)]
pub enum Leader {
    /// `{`.
    Block,
    /// `;`.
    Empty,
    If,
    While,
    Switch,
    Do,
    For,
    Case,
    Default,
    Break,
    Continue,
    Return,
}
