// Operators and words, each by the token that spells it.

/// A unary operator (C11 6.5.3).
#[derive(Clone, Copy, Debug, PartialEq, Eq)]
pub enum UnaryOperator {
    /// `&`.
    Address,
    /// `*`.
    Dereference,
    /// `+`.
    Plus,
    /// `-`.
    Negate,
    /// `~`.
    Complement,
    /// `!`.
    Not,
}

/// `++` or `--`.
#[derive(Clone, Copy, Debug, PartialEq, Eq)]
pub enum UpdateOperator {
    Increment,
    Decrement,
}

/// How a member is named (C11 6.5.2.3).
#[derive(Clone, Copy, Debug, PartialEq, Eq)]
pub enum MemberOperator {
    /// `.`.
    Dot,
    /// `->`.
    Arrow,
}

/// A binary operator (C11 6.5.5 to 6.5.14).
#[derive(Clone, Copy, Debug, PartialEq, Eq)]
pub enum BinaryOperator {
    Multiply,
    Divide,
    Remainder,
    Add,
    Subtract,
    ShiftLeft,
    ShiftRight,
    Less,
    Greater,
    LessEqual,
    GreaterEqual,
    Equal,
    NotEqual,
    BitAnd,
    BitXor,
    BitOr,
    And,
    Or,
}

/// `=`, or `op=` (C11 6.5.16).
#[derive(Clone, Copy, Debug, PartialEq, Eq)]
pub enum AssignmentOperator {
    Assign,
    Multiply,
    Divide,
    Remainder,
    Add,
    Subtract,
    ShiftLeft,
    ShiftRight,
    BitAnd,
    BitXor,
    BitOr,
}

/// A word among the specifiers of a declaration (C11 6.7.1 to 6.7.3).
#[derive(Clone, Copy, Debug, PartialEq, Eq)]
pub enum SpecifierWord {
    Static,
    Extern,
    Const,
    Signed,
    Unsigned,
    Bool,
    Char,
    Short,
    Int,
    Long,
    Void,
}
