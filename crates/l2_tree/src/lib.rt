//! The tree of a text as it is spelt (C11 6.5 to 6.9): a variant for each form, with its parts in their order, and the place of
//! each token but closing brackets, commas, colons, semicolons, `else` and the end of the text.
#![tactic(auto)]

mod expression;
mod operators;
mod starts;
mod statement;
mod unit;

pub use expression::{
    Core, Declaration, Declarator, Declared, Enumerator, Enumerators, Expr, Initialiser,
    Initialisers, Parameter, Pointer, Specifier, Specifiers, Suffix, Tag,
};
pub use operators::{
    AssignmentOperator, BinaryOperator, MemberOperator, SpecifierWord, UnaryOperator,
    UpdateOperator,
};
pub use starts::{Continuation, Leader, Opening};
pub use statement::{Branch, First, Stmt};
pub use unit::{External, Unit};
